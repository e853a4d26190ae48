ghost use Rattle.rules.specs.Formulas.{cast_iron, composite};
ghost use Rattle.std.proofs.Common.{rules};

use crate::law::{FallingLaw, Formula};
use units::{ExactValue, Millionths, Speed};

// Both frictions are one form with three numbers. They stay two types: that each falls with speed and keeps below 1,000,000 is
// proved of its own numbers, and const parameters could not be bound to such.

/// The friction of cast iron blocks: 270,000 (v + 1,000) / (5 v + 1,000) millionths at v tenths of km/h.
#[derive(Clone, Copy, Debug)]
pub struct CastIron;

impl Formula for CastIron {
    type Unit = Millionths;

    type Place = Speed;

    ghost value = { λ _ v. cast_iron v };

    ghost proper = { Prim.search rules };

    ghost most = { Prim.search rules };

    fn exactly(&self, v: Speed) -> ExactValue<Millionths> {
        let v = v.tenths();
        ExactValue::of(270_000 * (u64::from(v) + 1000), 5 * v + 1000).unwrap()
    }
}

impl FallingLaw for CastIron {
    ghost falls = { Prim.search rules };
}

/// The friction of composite blocks: 360,000 (v + 1,500) / (2 v + 1,500) millionths at v tenths of km/h.
#[derive(Clone, Copy, Debug)]
pub struct Composite;

impl Formula for Composite {
    type Unit = Millionths;

    type Place = Speed;

    ghost value = { λ _ v. composite v };

    ghost proper = { Prim.search rules };

    ghost most = { Prim.search rules };

    fn exactly(&self, v: Speed) -> ExactValue<Millionths> {
        let v = v.tenths();
        ExactValue::of(360_000 * (u64::from(v) + 1500), 2 * v + 1500).unwrap()
    }
}

impl FallingLaw for Composite {
    ghost falls = { Prim.search rules };
}
