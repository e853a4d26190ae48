ghost use Rattle.std.specs.Prelude.{◌≡◌, ℕ, ◌*◌, ◌≤◌, ◌++◌, Some, codes, decimal};
ghost use Rattle.rules.specs.Allowance.{as_u32};
ghost use Rattle.rules.specs.Ratio.{Ratio, AtMost};
ghost use Rattle.rules.specs.Law.{Reads};
ghost use Rattle.rules.specs.Refusals.{MadeOr};

use crate::reading::Reading;
use rules::Refusal;
use std::fmt;
use units::{Amount, ExactValue, Gross, MilliPerTonne, Speed};

/// Where a law is read.
pub trait Place: Copy {
    // where every law has a value
    ghost in_range: { Self → Type 0 };
}

impl Place for Speed {
    ghost in_range = { λ v. v ≤ 1600 };
}

/// A train that runs: its speed and its gross mass per wagon. There a drag is read.
#[derive(Clone, Copy, PartialEq, Eq, Debug)]
pub struct Running {
    pub speed: Speed,
    pub gross: Gross,
}

impl Place for Running {
    ghost in_range = { λ r. (r.speed ≤ 1600) × (50 ≤ r.gross) × (r.gross ≤ 2000) };
}

impl Running {
    // By name and not by `TryFrom`, as its two figures: a pair of bare numbers would not say tenths.
    /// A train at a speed and a gross mass per wagon, both in tenths; refused with 7 where either is out of its range.
    pub fn from_tenths(speed: u32, gross: u32) -> Result<Running, Refusal>
        ensures { MadeOr 7 ((speed ≤ 1600) × (50 ≤ gross) × (gross ≤ 2000))
            (λ r. (r.speed ≡ speed) × (r.gross ≡ gross)) result }
    {
        Ok(Running {
            speed: Speed::from_tenths(speed)?,
            gross: Gross::from_tenths(gross)?,
        })
    }
}

impl fmt::Display for Running {
    ghost output = { λ r. Some (decimal r.speed ++ (codes ", " ++ decimal r.gross)) };

    fn fmt<W: fmt::Write>(&self, f: &mut fmt::Formatter<W>) -> fmt::Result {
        write!(f, "{}, {}", self.speed, self.gross)
    }
}

/// A law of a train: an exact value at each place, and the whole values below and above it that are read for it.
pub trait Law {
    /// What the law is measured in.
    type Unit: Copy;

    /// Where it is read.
    type Place: Place;

    // the exact value at a place
    ghost exact: { Self → Self.Place → Ratio };

    // the whole numbers that are read for it
    ghost low: { Self → Self.Place → ℕ };

    ghost high: { Self → Self.Place → ℕ };

    // how far apart these may be
    ghost slack: { Self → ℕ };

    /// Both whole values at a place.
    fn read(&self, at: Self::Place) -> Reading<Self::Unit>
        ensures below { result.below ≡ low self.now at }
        ensures above { result.above ≡ high self.now at };

    /// The whole value below the exact one at a place.
    fn below(&self, at: Self::Place) -> Amount<Self::Unit>
        ensures value { result ≡ low self.now at }
        ensures most { result ≤ 1000000 }
    {
        self.read(at).below
    }

    /// The whole value above the exact one at a place.
    fn above(&self, at: Self::Place) -> Amount<Self::Unit>
        ensures value { result ≡ high self.now at }
        ensures most { result ≤ 1000000 }
    {
        self.read(at).above
    }

    /// How far apart the two whole values may be; none where 32 bits do not hold it.
    fn slack(&self) -> Option<u32>
        ensures { result ≡ as_u32 (slack self.now) };

    ghost reads: { (l : Self) (x : Self.Place) → Self.Place.in_range x → Reads (exact l x) (low l x) (high l x) (slack l) };
}

/// A law whose exact value never rises with the speed: brake friction, or the pull of a locomotive.
pub trait FallingLaw: Law<Place = Speed> {
    ghost falls: { (l : Self) (v w : ℕ) → v ≤ w → w ≤ 1600 → AtMost (Self.exact l w) (Self.exact l v) };
}

/// A law whose exact value never falls as the speed grows: the drag at a gross mass per wagon.
pub trait DragLaw: Law<Place = Running, Unit = MilliPerTonne> {
    ghost rises: { (l : Self) (v w q : ℕ) → v ≤ w → w ≤ 1600 → 50 ≤ q → q ≤ 2000
        → AtMost (Self.exact l (record { speed = v; gross = q })) (Self.exact l (record { speed = w; gross = q })) };
}

/// A law that is given by a formula for its exact value alone.
pub trait Formula {
    /// What the law is measured in.
    type Unit: Copy;

    /// Where it is read.
    type Place: Place;

    // the exact value at a place
    ghost value: { Self → Self.Place → Ratio };

    /// The exact value at a place.
    fn exactly(&self, at: Self::Place) -> ExactValue<Self::Unit>
        ensures { result ≡ value self.now at };

    ghost proper: { (l : Self) (x : Self.Place) → Self.Place.in_range x → 1 ≤ (value l x).den };

    ghost most: { (l : Self) (x : Self.Place) → Self.Place.in_range x → (value l x).num ≤ 1000000 * (value l x).den };
}
