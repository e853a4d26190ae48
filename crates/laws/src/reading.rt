ghost use Rattle.std.specs.Prelude.{◌≡◌, ◌≤◌};
ghost use Rattle.rules.specs.Ratio.{rounded_down, rounded_up};
ghost use Rattle.std.proofs.Common.{arith};
ghost use Rattle.rules.proofs.Readings.{rounded_reads};

use crate::law::{Formula, Law};
use units::{Amount, ExactValue};

// The bound stands here and at an exact value. The few private functions that take one number out of a reading ask it back: a
// type for such a number would be a third one beside `Amount` and `Tenths`.
/// What is read for an exact value: a whole number below it and one above, at most 1,000,000.
#[derive(Drop)]
pub struct Reading<U> {
    pub below: Amount<U>,
    pub above: Amount<U>,
    ghost order: { below ≤ above },
    ghost most: { above ≤ 1000000 },
}

impl<U> From<ExactValue<U>> for Reading<U> {
    ghost from_gives = { λ x r. (r.below ≡ rounded_down x) × (r.above ≡ rounded_up x) };

    fn from(exact: ExactValue<U>) -> Reading<U> {
        Reading {
            below: exact.down(),
            above: exact.up(),
        }
    }
}

impl<F: Formula> Law for F {
    type Unit = F::Unit;

    type Place = F::Place;

    ghost exact = { λ l x. F.value l x };

    ghost low = { λ l x. rounded_down (F.value l x) };

    ghost high = { λ l x. rounded_up (F.value l x) };

    ghost slack = { λ _. 1 };

    ghost reads = { λ l x h. rounded_reads _ (F.proper l x h) (F.most l x h) };

    fn read(&self, at: F::Place) -> Reading<F::Unit> {
        Reading::from(self.exactly(at))
    }

    fn slack(&self) -> Option<u32> {
        Some(1)
    }
}

/// Of a law by a formula the whole values are its exact one rounded down and up, and its slack is 1.
pub fn formulas_are_rounded<F: Formula>()
    ensures below { (l : F) (x : F.Place) → ⟦<F as Law>⟧.low l x ≡ rounded_down (F.value l x) }
    ensures above { (l : F) (x : F.Place) → ⟦<F as Law>⟧.high l x ≡ rounded_up (F.value l x) }
    ensures slack { (l : F) → ⟦<F as Law>⟧.slack l ≡ 1 }
{}
