ghost use Rattle.std.specs.Prelude.{◌≤◌, length, MatchBool};
ghost use Rattle.text.specs.Numerals.{Numeral, SignedNumeral, Plain, ValueOf, Below, FieldRead};

use crate::malformed::Malformed;

// The most digits that a number has.
const MOST_DIGITS: usize = 7;

/// The number that a field writes: 1 to 7 digits without a leading zero.
#[tactic(auto, using(crate::proofs::Numerals::plain_numeral, crate::proofs::Numerals::numeral_plain))]
pub fn number(field: &[u8]) -> Result<u32, Malformed>
    ensures { FieldRead (Numeral field.now) result }
{
    if !is_plain(field) {
        return Err(Malformed);
    }
    value_of(field)
}

/// The number that a field writes, with a minus before the digits of one below 0.
pub fn signed_number(field: &[u8]) -> Result<i32, Malformed>
    ensures { FieldRead (SignedNumeral field.now) result }
{
    let [b'-', digits @ ..] = field else {
        let Ok(n) = number(field) else {
            return Err(Malformed);
        };
        return Ok(n as i32);
    };
    negative(digits)
}

// The number below 0 that these digits write after a minus.
#[tactic(auto, using(crate::proofs::Numerals::numeral_same))]
fn negative(digits: &[u8]) -> Result<i32, Malformed>
    ensures { FieldRead (Below digits.now) result }
{
    let Ok(n) = number(digits) else {
        return Err(Malformed);
    };
    if n == 0 {
        return Err(Malformed);
    }
    Ok(-(n as i32))
}

// Whether a field has as many bytes as a number, and no zero before others.
fn is_plain(field: &[u8]) -> bool
    ensures { MatchBool result (Plain field.now) (Plain field.now → ⊥) }
{
    let count = field.len();
    1 <= count && count <= MOST_DIGITS && (count == 1 || field[0] != b'0')
}

// The value of digits, with or without leading zeros.
fn value_of(digits: &[u8]) -> Result<u32, Malformed>
    requires { length digits.now ≤ 7 }
    ensures { FieldRead (ValueOf digits.now) result }
{
    let mut n: u32 = 0;
    for b in digits {
        if !b.is_ascii_digit() {
            return Err(Malformed);
        }
        n = n * 10 + u32::from(*b - b'0');
    }
    Ok(n)
}
