ghost use Rattle.std.specs.Prelude.{◌≡◌, ◌*◌, ◌≤◌};
ghost use Rattle.rules.specs.Ratio.{ratio, rounded_down, rounded_up};
ghost use Rattle.rules.specs.Refusals.{MadeIf};

use crate::amount::Amount;
use rules::Refusal;
use std::marker::{Model, PhantomData};

/// An exact value of some unit: a ratio of whole numbers, at most 1,000,000. No exact value is taken for one of another unit.
#[derive_where(Clone, Copy, PartialEq, Eq, Debug)]
pub struct ExactValue<U> {
    num: u64,
    den: u32,
    unit: PhantomData<U>,
}

impl<U> Model for ExactValue<U> {
    ghost use Rattle.std.specs.Prelude.{◌*◌, ◌≤◌};
    ghost use Rattle.rules.specs.Ratio.{Ratio, ratio};

    ghost Value = { Ratio };

    ghost view = { λ x. ratio x.num x.den };

    ghost invariant = { λ x. (1 ≤ x.den) × (x.num ≤ 1000000 * x.den) };

    ghost inverse = { λ x. record { num = x.num; den = x.den; unit = _ } };
}

impl<U> ExactValue<U> {
    // The unit is that of the type, as that of an amount.
    /// The ratio of these numbers; refused with 14 over 0 and where it is over 1,000,000.
    pub fn of(num: u64, den: u32) -> Result<ExactValue<U>, Refusal>
        ensures { MadeIf ((1 ≤ den) × (num ≤ 1000000 * den)) (λ x. x ≡ ratio num den) result }
    {
        if 1 <= den && num <= 1_000_000 * u64::from(den) {
            Ok(ExactValue {
                num,
                den,
                unit: PhantomData,
            })
        } else {
            Err(Refusal::UnlawfulLaw)
        }
    }

    /// The whole number next below, or the value itself where it is whole.
    pub fn down(&self) -> Amount<U>
        ensures value { result ≡ rounded_down self.now }
        ensures most { result ≤ 1000000 }
    {
        Amount::new((self.num / u64::from(self.den)) as u32)
    }

    /// The whole number next above, or the value itself where it is whole.
    pub fn up(&self) -> Amount<U>
        ensures value { result ≡ rounded_up self.now }
        ensures most { result ≤ 1000000 }
    {
        Amount::new(self.num.div_ceil(u64::from(self.den)) as u32)
    }
}
