ghost use Rattle.std.specs.Prelude.{◌≡◌, ◌+◌, ◌/◌, ◌%◌, ◌<◌, ◌≤◌, [], ◌∷◌, ◌++◌, length, codes, decimal};
ghost use Rattle.printing.specs.Puts.{Puts};

// How many bytes a buffer must have for a line of any figures.
pub(crate) const ROOM: usize = 64;

// Puts bytes at an offset, and answers where they end.
#[tactic(auto, unfolding(crate::specs::Puts::Puts))]
pub(crate) fn put_bytes(out: &mut [u8], at: usize, bytes: &[u8]) -> usize
    requires { at + length bytes.now ≤ length out.old }
    ensures put { Puts bytes.now at out.old result out.new }
    ensures end { result ≡ at + length bytes.now }
{
    let end = at + bytes.len();
    out[at..end].copy_from_slice(bytes);
    end
}

// Puts both digits of a number below 100 at an offset, and answers where they end.
#[tactic(auto, using(crate::proofs::Puts::two))]
fn put_two_digits(out: &mut [u8], at: usize, n: u32) -> usize
    requires fits { at + 2 ≤ length out.old }
    requires small { n < 100 }
    ensures put { Puts ((48 + n / 10) ∷ (48 + n % 10) ∷ []) at out.old result out.new }
    ensures end { result ≡ at + 2 }
{
    out[at] = b'0' + (n / 10) as u8;
    out[at + 1] = b'0' + (n % 10) as u8;
    at + 2
}

// Puts the numeral of n at an offset, and answers where it ends.
#[tactic(auto, using(crate::proofs::Numerals::numerals))]
pub(crate) fn put_number(out: &mut [u8], at: usize, n: u32) -> usize
    requires { at + 10 ≤ length out.old }
    ensures put { Puts (decimal n) at out.old result out.new }
    ensures end { result ≡ at + length (decimal n) }
    ensures short { result ≤ at + 10 }
{
    if n < 10 {
        out[at] = b'0' + n as u8;
        return at + 1;
    }
    if n < 100 {
        return put_two_digits(out, at, n);
    }
    let end = put_number(out, at, n / 100);
    put_two_digits(out, end, n % 100)
}

// Puts a space and the numeral of n at an offset, and answers where it ends.
#[tactic(auto, using(crate::proofs::Puts::behind))]
pub(crate) fn put_figure(out: &mut [u8], at: usize, n: u32) -> usize
    requires { at + 11 ≤ length out.old }
    ensures put { Puts (codes " " ++ decimal n) at out.old result out.new }
    ensures short { result ≤ at + 11 }
{
    out[at] = b' ';
    put_number(out, at + 1, n)
}
