ghost use Rattle.rules.specs.Formulas.{df4_a, df4_b, df4_c};
ghost use Rattle.std.specs.Prelude.{◌≡◌};

use crate::blocks::CastIron;
use crate::drags::{QuadraticDrag, WagonDrag};
use crate::stock::{Locomotive, Stock};

/// Cast iron blocks, a diesel locomotive of some pull with a drag by three constants, and wagons.
pub type Diesel<L> = Stock<CastIron, Locomotive<L, QuadraticDrag, QuadraticDrag>, WagonDrag>;

/// The stock with a DF4 locomotive of this pull.
pub fn diesel<L>(pull: L) -> Diesel<L>
    ensures pull { result.locomotive.pull ≡ pull }
    ensures pulling { (result.locomotive.pulling.a ≡ df4_a) × (result.locomotive.pulling.b ≡ df4_b) × (result.locomotive.pulling.c ≡ df4_c) }
    ensures coasting { (result.locomotive.coasting.a ≡ df4_a) × (result.locomotive.coasting.b ≡ df4_b) × (result.locomotive.coasting.c ≡ df4_c) }
{
    Stock {
        friction: CastIron,
        locomotive: Locomotive {
            pull,
            pulling: QuadraticDrag::df4(),
            coasting: QuadraticDrag::df4(),
        },
        wagon: WagonDrag,
    }
}
