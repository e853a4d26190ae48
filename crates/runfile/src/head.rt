ghost use Rattle.std.specs.Prelude.{◌≡◌, ℕ, ◌+◌, [], ◌∷◌, None, MatchResult};
ghost use Rattle.text.specs.Sorts.{Read, Wrong};
ghost use Rattle.std.specs.Option.{option_to_list};
ghost use Rattle.runfile.specs.Sorts.{head_sort};
ghost use Rattle.laws.specs.Kinds.{letter_of};
ghost use Rattle.text.specs.Numerals.{FieldRead};

use laws::KindLetter;
use rules::{Fault, Refusal};
use sheet::check_distance;
use text::{Entry, Malformed, Store, Text, number};

/// The line under the heading RUN: the kind of brake, and the braking distance in metres as it is given.
#[derive(Clone, Copy, PartialEq, Eq, Debug)]
pub struct Head {
    pub kind: KindLetter,
    pub distance: u32,
}

// The kind of brake with a letter.
fn kind_of(letter: u8) -> Result<KindLetter, Malformed>
    ensures { FieldRead (λ k. letter_of k ≡ letter ∷ []) result }
{
    match letter {
        b'F' => Ok(KindLetter::F),
        b'P' => Ok(KindLetter::P),
        b'E' => Ok(KindLetter::E),
        b'H' => Ok(KindLetter::H),
        b'J' => Ok(KindLetter::J),
        _ => Err(Malformed),
    }
}

impl Entry for Head {
    ghost sort = { head_sort };

    fn after_name(line: &[u8]) -> Option<&[u8]> {
        let [b'R', b'U', b'N', b' ', count @ ..] = line else {
            return None;
        };
        Some(count)
    }

    fn limits() -> (u32, u32) {
        (1, 1)
    }

    fn read(line: u32, text: &[u8]) -> Result<Head, Fault> {
        let [letter, b' ', rest @ ..] = text else {
            return Err(Malformed::on(line));
        };
        let Ok(kind) = kind_of(*letter) else {
            return Err(Malformed::on(line));
        };
        let Ok(distance) = number(rest) else {
            return Err(Malformed::on(line));
        };
        Ok(Head { kind, distance })
    }
}

impl Store<Head> for Option<Head> {
    ghost held = { λ h. option_to_list h };

    ghost emptied = { λ h. None };

    fn clear(&mut self) {
        *self = None;
    }

    fn store(&mut self, head: Head) -> Result<(), Refusal> {
        if self.is_some() {
            return Err(Refusal::UnlawfulBrakingDistance);
        }
        check_distance(head.distance)?;
        *self = Some(head);
        Ok(())
    }
}

/// Reads the section RUN, which has one line: what this says, and the text behind the section.
pub(crate) fn read_head(text: Text) -> Result<(Head, Text), Fault>
    ensures { MatchResult result
        (λ p. Read head_sort text.entry.rest (p.0 ∷ []) p.1.rest × (p.1.line ≡ text.entry.line + 2))
        (λ f. (right : ℕ) × Wrong head_sort text.entry.rest right f.refusal × (f.line ≡ text.entry.line + (right + 1))) }
{
    let mut head = None;
    let text = text.section::<Head, Option<Head>>(&mut head)?;
    let Some(head) = head else { unreachable!() };
    Ok((head, text))
}
