ghost use Rattle.std.specs.Prelude.{◌≡◌, ◌≤◌, min, pos, ◌+ℤ◌, ◌*ℤ◌, Some};
ghost use Rattle.std.specs.Fmt.{signed_decimal};
ghost use Rattle.rules.specs.Fraction.{fall_of, natural_of};
ghost use Rattle.std.specs.Int.{int_min};

use crate::amount::Milli;
use std::fmt;
use std::marker::Model;

// The greatest force in milli, 2^62.
const MOST: i64 = 4_611_686_018_427_387_904;

/// A specific force of either sign in milli, thousandths of kgf/t, at most 2^62: it holds a train back, and drives it on where it
/// is negative.
#[derive(Clone, Copy, PartialEq, Eq, PartialOrd, Ord, Debug)]
pub struct SpecificForce {
    milli: i64,
}

/// A grade: the specific force of the slope, 1,000 milli for each per mille, negative where the line falls.
pub type Grade = SpecificForce;

impl Model for SpecificForce {
    ghost use Rattle.std.specs.Prelude.{ℤ, ◌≤ℤ◌, pos};

    ghost Value = { ℤ };

    ghost view = { λ f. f.milli };

    ghost invariant = { λ f. f.milli ≤ℤ pos 4611686018427387904 };

    ghost inverse = { λ z. record { milli = z } };
}

impl SpecificForce {
    // By name and not by `From`: `Grade::from(100)` would not say milli.
    /// The force of so many milli.
    pub fn from_milli(milli: i32) -> SpecificForce
        ensures { result ≡ milli }
    {
        SpecificForce {
            milli: i64::from(milli),
        }
    }

    /// The force that holds a train back under a brake force and a drag on a grade; one of more than 2^62 milli is taken as that.
    pub fn holding(brake: Milli, drag: Milli, grade: Grade) -> SpecificForce
        ensures { result ≡ int_min (pos brake +ℤ pos drag +ℤ grade) (pos 4611686018427387904) }
    {
        let milli = i64::from(brake.count()) + i64::from(drag.count()) + grade.milli;
        SpecificForce {
            milli: milli.min(MOST),
        }
    }

    /// The force in milli.
    pub fn milli(self) -> i64
        ensures { result ≡ self }
    {
        self.milli
    }

    // `min` of the derived order, by the word of the subject.
    /// The lower of two forces.
    pub fn lower(self, other: SpecificForce) -> SpecificForce
        ensures { result ≡ int_min self other }
    {
        self.min(other)
    }

    /// The force as an amount: 0 where it is negative, and 4,294,967,295 milli where it is more.
    pub fn positive_part(self) -> Milli
        ensures { result ≡ min (natural_of self) 4294967295 }
    {
        let milli = self.milli.max(0).unsigned_abs();
        Milli::new(milli.min(u64::from(u32::MAX)) as u32)
    }

    /// How steep a fall is: 0 on the level and on a rise, and 4,294,967,295 milli where it is steeper.
    pub fn fall(self) -> Milli
        ensures { result ≡ min (fall_of self) 4294967295 }
    {
        let milli = self.milli.min(0).unsigned_abs();
        Milli::new(milli.min(u64::from(u32::MAX)) as u32)
    }
}

impl fmt::Display for SpecificForce {
    ghost output = { λ f. Some (signed_decimal f) };

    fn fmt<W: fmt::Write>(&self, f: &mut fmt::Formatter<W>) -> fmt::Result {
        write!(f, "{}", self.milli())
    }
}
