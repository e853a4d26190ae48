ghost use Rattle.std.specs.Prelude.{◌≡◌};
ghost use Rattle.rules.specs.Formulas.{adhesion, AdhesionRange};
ghost use Rattle.rules.specs.Refusals.{MadeIf};
ghost use Rattle.std.proofs.Common.{arith, rules};
ghost use Rattle.rules.proofs.Formulas.{adhesion_cap, adhesion_falls};

use crate::law::{FallingLaw, Formula};
use rules::Refusal;
use units::{ExactValue, KilogramsForce, Speed};

/// The pull that adhesion allows: 25 A + 400 A / (50 + v) kgf at v tenths of km/h, for an adhesive mass of A tenths of a tonne.
#[derive(Clone, Copy, Debug)]
pub struct AdhesionPull {
    mass: u32,
    ghost lawful: { AdhesionRange mass },
}

impl AdhesionPull {
    /// The pull at this adhesive mass; refused where it is 0 or over 20,000.
    pub fn new(mass: u32) -> Result<AdhesionPull, Refusal>
        ensures { MadeIf (AdhesionRange mass) (λ l. l.mass ≡ mass) result }
    {
        if (1..=20_000).contains(&mass) {
            Ok(AdhesionPull { mass })
        } else {
            Err(Refusal::UnlawfulLaw)
        }
    }
}

impl Formula for AdhesionPull {
    type Unit = KilogramsForce;

    type Place = Speed;

    ghost value = { λ l v. adhesion l.mass v };

    ghost proper = { Prim.search rules };

    ghost most = { λ l v h. adhesion_cap l.mass v l.lawful };

    fn exactly(&self, v: Speed) -> ExactValue<KilogramsForce> {
        let mass = u64::from(self.mass);
        let shifted = 50 + v.tenths();
        ExactValue::of(25 * mass * u64::from(shifted) + 400 * mass, shifted).unwrap()
    }
}

impl FallingLaw for AdhesionPull {
    ghost falls = { λ l v w h k. adhesion_falls l.mass v w h };
}
