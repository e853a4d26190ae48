ghost use Rattle.std.specs.Prelude.{◌≡◌, ◌*◌, ◌/◌, ◌<◌, ◌≤◌, min, max, MatchOption, Some, decimal};
ghost use Rattle.rules.specs.Refusals.{MadeOr};

use rules::Refusal;
use std::fmt;
use std::marker::{Model, PhantomData};

/// Kilometres per hour, of which a speed is told in tenths.
#[derive(Clone, Copy, PartialEq, Eq, Debug)]
pub struct KilometresPerHour;

/// Tonnes, of which a mass is told in tenths.
#[derive(Clone, Copy, PartialEq, Eq, Debug)]
pub struct Tonnes;

/// So many tenths of a unit, within a range.
#[derive_where(Clone, Copy, PartialEq, Eq, PartialOrd, Ord, Debug)]
pub struct Tenths<U, const LEAST: u32, const MOST: u32> {
    tenths: u32,
    unit: PhantomData<U>,
}

/// A speed in tenths of km/h, at most 160 km/h.
pub type Speed = Tenths<KilometresPerHour, 0, 1600>;

/// A gross mass per wagon in tenths of a tonne, 5 to 200 t.
pub type Gross = Tenths<Tonnes, 50, 2000>;

/// A mass of wagons that is hauled, in tenths of a tonne, 50 to 10,000 t.
pub type Load = Tenths<Tonnes, 500, 100_000>;

impl<U, const LEAST: u32, const MOST: u32> Model for Tenths<U, LEAST, MOST> {
    ghost use Rattle.std.specs.Prelude.{ℕ, ◌≤◌};

    ghost Value = { ℕ };

    ghost view = { λ v. v.tenths };

    ghost invariant = { λ v. (LEAST ≤ v.tenths) × (v.tenths ≤ MOST) };

    ghost inverse = { λ n. record { tenths = n; unit = _ } };
}

impl<U, const LEAST: u32, const MOST: u32> Tenths<U, LEAST, MOST> {
    // So many tenths; none out of the range.
    fn within(tenths: u32) -> Option<Tenths<U, LEAST, MOST>>
        ensures { MatchOption result (LEAST ≤ tenths → MOST < tenths) (λ v. v ≡ tenths) }
    {
        if (LEAST..=MOST).contains(&tenths) {
            Some(Tenths {
                tenths,
                unit: PhantomData,
            })
        } else {
            None
        }
    }

    /// How many tenths.
    pub fn tenths(self) -> u32
        ensures value { result ≡ self }
        ensures least { LEAST ≤ result }
        ensures most { result ≤ MOST }
    {
        self.tenths
    }
}

// By name and not by `TryFrom`: `Speed::try_from(100)` would not say tenths.

impl Speed {
    /// The speed of so many tenths of km/h; refused with 7 over 160 km/h.
    pub fn from_tenths(tenths: u32) -> Result<Speed, Refusal>
        ensures { MadeOr 7 (tenths ≤ 1600) (λ v. v ≡ tenths) result }
    {
        Speed::within(tenths).ok_or(Refusal::QuestionOutOfRange)
    }

    /// The speed of so many tenths of km/h, and 160 km/h for any that are more.
    pub fn capped(tenths: u32) -> Speed
        ensures { result ≡ min tenths 1600 }
    {
        Tenths {
            tenths: tenths.min(1600),
            unit: PhantomData,
        }
    }
}

impl Gross {
    /// The gross mass per wagon of so many tenths of a tonne; refused with 7 under 5 t and over 200 t.
    pub fn from_tenths(tenths: u32) -> Result<Gross, Refusal>
        ensures { MadeOr 7 ((50 ≤ tenths) × (tenths ≤ 2000)) (λ q. q ≡ tenths) result }
    {
        Gross::within(tenths).ok_or(Refusal::QuestionOutOfRange)
    }
}

impl Load {
    /// The greatest multiple of 50 t within a limit in tenths of a tonne, and 10,000 t for any limit over that; refused with 13
    /// where 50 t are over the limit.
    pub fn within_limit(limit: u32) -> Result<Load, Refusal>
        ensures { MadeOr 13 (500 ≤ limit) (λ x. x ≡ 500 * (min limit 100000 / 500)) result }
    {
        let multiple = limit.min(100_000) / 500 * 500;
        Load::within(multiple).ok_or(Refusal::HaulsNothing)
    }
}

impl<U, const LEAST: u32, const MOST: u32> fmt::Display for Tenths<U, LEAST, MOST> {
    ghost output = { λ v. Some (decimal v) };

    fn fmt<W: fmt::Write>(&self, f: &mut fmt::Formatter<W>) -> fmt::Result {
        write!(f, "{}", self.tenths)
    }
}
