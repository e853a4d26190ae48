ghost use Rattle.rules.specs.Formulas.{no_pull};
ghost use Rattle.std.proofs.Common.{rules};

use crate::law::{FallingLaw, Law};
use crate::reading::Reading;
use units::{Amount, KilogramsForce, Speed};

/// The pull of a vehicle without traction: 0 kgf at every speed.
#[derive(Clone, Copy, Debug)]
pub struct NoPull;

impl Law for NoPull {
    type Unit = KilogramsForce;

    type Place = Speed;

    ghost exact = { λ _ _. no_pull };

    ghost low = { λ _ _. 0 };

    ghost high = { λ _ _. 0 };

    ghost slack = { λ _. 0 };

    ghost reads = { Prim.search rules };

    fn read(&self, _v: Speed) -> Reading<KilogramsForce> {
        Reading {
            below: Amount::new(0),
            above: Amount::new(0),
        }
    }

    fn slack(&self) -> Option<u32> {
        Some(0)
    }
}

impl FallingLaw for NoPull {
    ghost falls = { Prim.search rules };
}
