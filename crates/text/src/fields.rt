ghost use Rattle.std.specs.Prelude.{◌≡◌, ℕ, List, ℤ, MatchOption, MatchResult};
ghost use Rattle.text.specs.Numerals.{FieldRead, LineRead, malformed, Lacks, Cut};
ghost use Rattle.text.specs.Fields.{Leads, LeadsSigned, Two, Three, flag};

use crate::malformed::Malformed;
use crate::numbers::{number, signed_number};
use rules::Fault;

// What stands before the first `mark`, and what stands after it.
pub(crate) fn cut(text: &[u8], mark: u8) -> Option<(&[u8], &[u8])>
    ensures { MatchOption result (Lacks mark text.now) (λ p. Cut mark text.now p.0.now p.1.now) }
{
    for (i, b) in text.iter().enumerate() {
        if *b == mark {
            return Some((&text[..i], &text[i + 1..]));
        }
    }
    None
}

/// A number with the space after it, and what follows, in a line of a text.
pub fn leading_number(line: u32, text: &[u8]) -> Result<(u32, &[u8]), Fault>
    ensures { MatchResult result
        (λ p. Leads text.now p.0 p.1.now)
        (λ f. (f ≡ malformed line) × ((n : ℕ) (rest : List ℕ) → Leads text.now n rest → ⊥)) }
{
    let Some((field, rest)) = cut(text, b' ') else {
        return Err(Malformed::on(line));
    };
    let Ok(n) = number(field) else {
        return Err(Malformed::on(line));
    };
    Ok((n, rest))
}

/// A signed number with the space after it, and what follows, in a line of a text.
pub fn leading_signed(line: u32, text: &[u8]) -> Result<(i32, &[u8]), Fault>
    ensures { MatchResult result
        (λ p. LeadsSigned text.now p.0 p.1.now)
        (λ f. (f ≡ malformed line) × ((z : ℤ) (rest : List ℕ) → LeadsSigned text.now z rest → ⊥)) }
{
    let Some((field, rest)) = cut(text, b' ') else {
        return Err(Malformed::on(line));
    };
    let Ok(z) = signed_number(field) else {
        return Err(Malformed::on(line));
    };
    Ok((z, rest))
}

/// Two numbers, which end a line of a text.
pub fn pair(line: u32, text: &[u8]) -> Result<(u32, u32), Fault>
    ensures { LineRead line (Two text.now) result }
{
    let Ok((first, rest)) = leading_number(line, text) else {
        return Err(Malformed::on(line));
    };
    let Ok(second) = number(rest) else {
        return Err(Malformed::on(line));
    };
    Ok((first, second))
}

/// Three numbers, which end a line of a text.
pub fn triple(line: u32, text: &[u8]) -> Result<(u32, u32, u32), Fault>
    ensures { LineRead line (Three text.now) result }
{
    let Ok((first, rest)) = leading_number(line, text) else {
        return Err(Malformed::on(line));
    };
    let Ok((second, third)) = pair(line, rest) else {
        return Err(Malformed::on(line));
    };
    Ok((first, second, third))
}

/// What a field of 1 or 0 says: 1 is yes.
#[tactic(auto, using(crate::proofs::Patterns::only_one))]
pub fn switch(field: &[u8]) -> Result<bool, Malformed>
    ensures { FieldRead (λ b. field.now ≡ flag b) result }
{
    match field {
        [b'0'] => Ok(false),
        [b'1'] => Ok(true),
        _ => Err(Malformed),
    }
}
