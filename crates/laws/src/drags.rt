ghost use Rattle.std.specs.Prelude.{◌≡◌};
ghost use Rattle.rules.specs.Formulas.{wagon_drag, quadratic_drag, QuadraticRange, df4_a, df4_b, df4_c};
ghost use Rattle.rules.specs.Refusals.{MadeIf};
ghost use Rattle.rules.proofs.Formulas.{wagon_rises, quadratic_cap, quadratic_rises};
ghost use Rattle.std.proofs.Common.{rules, arith};

use crate::law::{DragLaw, Formula, Running};
use rules::Refusal;
use units::{ExactValue, MilliPerTonne};

/// The drag of wagons: 100,000 (v + 650) / (12,000 + 55 q) milli at v tenths of km/h and a gross mass per wagon of q tenths
/// of a tonne.
#[derive(Clone, Copy, Debug)]
pub struct WagonDrag;

impl Formula for WagonDrag {
    type Unit = MilliPerTonne;

    type Place = Running;

    ghost value = { λ _ r. wagon_drag r.speed r.gross };

    ghost proper = { Prim.search rules };

    ghost most = { Prim.search rules };

    fn exactly(&self, at: Running) -> ExactValue<MilliPerTonne> {
        let num = 100_000 * (u64::from(at.speed.tenths()) + 650);
        ExactValue::of(num, 12_000 + 55 * at.gross.tenths()).unwrap()
    }
}

impl DragLaw for WagonDrag {
    ghost rises = { λ l v w q h k low high. wagon_rises v w q h };
}

/// The drag of a vehicle by three constants: (100 a + 10 b v + c v²) / 100,000 milli at v tenths of km/h, whatever the gross
/// mass per wagon.
#[derive(Clone, Copy, Debug)]
pub struct QuadraticDrag {
    a: u32,
    b: u32,
    c: u32,
    ghost lawful: { QuadraticRange a b c },
}

impl QuadraticDrag {
    /// The drag by these constants; refused where a is over 100,000,000, b over 1,000,000 or c over 10,000.
    pub fn new(a: u32, b: u32, c: u32) -> Result<QuadraticDrag, Refusal>
        ensures { MadeIf (QuadraticRange a b c) (λ l. (l.a ≡ a) × (l.b ≡ b) × (l.c ≡ c)) result }
    {
        if a <= 100_000_000 && b <= 1_000_000 && c <= 10_000 {
            Ok(QuadraticDrag { a, b, c })
        } else {
            Err(Refusal::UnlawfulLaw)
        }
    }

    /// The drag of the diesel locomotive DF4.
    pub fn df4() -> QuadraticDrag
        ensures { (result.a ≡ df4_a) × (result.b ≡ df4_b) × (result.c ≡ df4_c) }
    {
        QuadraticDrag {
            a: 2_280_000,
            b: 29_300,
            c: 178,
        }
    }
}

impl Formula for QuadraticDrag {
    type Unit = MilliPerTonne;

    type Place = Running;

    ghost value = { λ l r. quadratic_drag l.a l.b l.c r.speed r.gross };

    ghost proper = { Prim.search rules };

    ghost most = { λ l r h. quadratic_cap l.a l.b l.c r.speed r.gross l.lawful h.0 };

    fn exactly(&self, at: Running) -> ExactValue<MilliPerTonne> {
        let v = u64::from(at.speed.tenths());
        let a = u64::from(self.a);
        let b = u64::from(self.b);
        let c = u64::from(self.c);
        ExactValue::of(100 * a + 10 * (b * v) + c * (v * v), 100_000).unwrap()
    }
}

impl DragLaw for QuadraticDrag {
    ghost rises = { λ l v w q h k low high. quadratic_rises l.a l.b l.c v w q h };
}
