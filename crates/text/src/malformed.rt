ghost use Rattle.std.specs.Prelude.{◌≡◌, Some, codes};
ghost use Rattle.text.specs.Numerals.{malformed};

use rules::{Fault, Refusal};
use std::error::Error;
use std::fmt;

/// A line or a field that is not of its form.
#[derive(Clone, Copy, PartialEq, Eq, Debug)]
pub struct Malformed;

impl Malformed {
    /// The fault of a line that is not of its form.
    pub fn on(line: u32) -> Fault
        ensures { result ≡ malformed line }
    {
        Fault {
            line,
            refusal: Refusal::MalformedLine,
        }
    }
}

impl fmt::Display for Malformed {
    ghost output = { λ _. Some (codes "not of its form") };

    fn fmt<W: fmt::Write>(&self, f: &mut fmt::Formatter<W>) -> fmt::Result {
        f.write_str("not of its form")
    }
}

impl Error for Malformed {}
