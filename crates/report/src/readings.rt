ghost use Rattle.report.specs.Printed.{reading_text};
ghost use Rattle.std.specs.Prelude.{◌≡◌};

use laws::{Law, Place, Reading};
use std::fmt;

/// What is read of a law at a place.
#[derive(Drop)]
pub struct ReadingAt<P, U> {
    pub at: P,
    pub reading: Reading<U>,
}

impl<P: Place, U: Copy> ReadingAt<P, U> {
    /// A law, read at a place.
    pub fn of<L: Law<Place = P, Unit = U>>(law: &L, at: P) -> ReadingAt<P, U>
        ensures place { result.at ≡ at }
        ensures below { result.reading.below ≡ L.low law.now at }
        ensures above { result.reading.above ≡ L.high law.now at }
    {
        ReadingAt {
            at,
            reading: law.read(at),
        }
    }
}

impl<P: fmt::Display, U> fmt::Display for ReadingAt<P, U> {
    ghost output = { λ x. reading_text (P.output x.at) x.reading.below x.reading.above };

    fn fmt<W: fmt::Write>(&self, f: &mut fmt::Formatter<W>) -> fmt::Result {
        let Reading { below, above } = &self.reading;
        write!(f, "at {}: {below} {above}", self.at)
    }
}
