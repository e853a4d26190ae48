ghost use Rattle.rules.specs.Ratio.{ratio};
ghost use Rattle.std.proofs.Common.{rules};

use laws::{FallingLaw, Formula};
use units::{ExactValue, Millionths, Speed};

/// The friction of disc brakes, 350,000 millionths at every speed.
#[derive(Clone, Copy, Debug)]
pub struct DiscBlocks;

impl Formula for DiscBlocks {
    type Unit = Millionths;

    type Place = Speed;

    ghost value = { λ _ _. ratio 350000 1 };

    ghost proper = { Prim.search rules };

    ghost most = { Prim.search rules };

    fn exactly(&self, _: Speed) -> ExactValue<Millionths> {
        ExactValue::of(350_000, 1).unwrap()
    }
}

impl FallingLaw for DiscBlocks {
    ghost falls = { Prim.search rules };
}
