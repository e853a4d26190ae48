ghost use Rattle.std.specs.Prelude.{◌≡◌};
ghost use Rattle.answering.specs.declared.unanswered.Unanswered.TheVariants.{Faulty};

use rules::{Fault, Refusal};

/// Why a question that is asked alone has no line.
#[derive(Clone, Copy, PartialEq, Eq, Debug)]
pub enum Unanswered {
    /// The buffer is refused, since it has fewer than 64 bytes.
    Refused(Refusal),
    /// The run file has no question of this number.
    NotAsked,
    /// The text is no run file.
    Faulty(Fault),
}

impl From<Fault> for Unanswered {
    ghost from_gives = { λ fault unanswered. unanswered ≡ Faulty fault };

    fn from(fault: Fault) -> Unanswered {
        Unanswered::Faulty(fault)
    }
}
