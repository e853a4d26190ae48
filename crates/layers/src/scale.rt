ghost use Rattle.std.specs.Prelude.{◌≡◌, ◌*◌, ◌≤◌};
ghost use Rattle.rules.specs.Layers.{PercentRange, percent_of, percent_down, percent_up, percent_slack};
ghost use Rattle.rules.specs.Ratio.{ratio};
ghost use Rattle.rules.specs.Refusals.{MadeIf};
ghost use Rattle.std.proofs.Common.{arith};
ghost use Rattle.rules.proofs.Layers.{percent_reads, percent_at_most};
ghost use Rattle.rules.proofs.Readings.{wider};

use laws::{DragLaw, FallingLaw, Law, Reading};
use rules::Refusal;
use units::{Amount, ExactValue};

/// So many hundredths of a law: of a friction, a pull or a drag.
#[derive(Drop)]
pub struct Scale<L> {
    base: L,
    percent: u32,
    ghost lawful: { PercentRange percent },
}

impl<L: Drop> Scale<L> {
    /// So many hundredths of this law; refused where they are not 1 to 100.
    pub fn new(base: L, percent: u32) -> Result<Scale<L>, Refusal>
        ensures { MadeIf (PercentRange percent) (λ s. (s.base ≡ base) × (s.percent ≡ percent)) result }
    {
        if (1..=100).contains(&percent) {
            Ok(Scale { base, percent })
        } else {
            Err(Refusal::UnlawfulLaw)
        }
    }
}

impl<L: Law> Scale<L> {
    // The share of a whole value, exactly. Its bound is that of the reading which it comes from: a type for it would be one more
    // wrapped number.
    fn share(&self, whole: Amount<L::Unit>) -> ExactValue<L::Unit>
        requires { whole ≤ 1000000 }
        ensures { result ≡ ratio (self.now.percent * whole) 100 }
    {
        ExactValue::of(u64::from(self.percent) * u64::from(whole.count()), 100).unwrap()
    }
}

impl<L: Law> Law for Scale<L> {
    type Unit = L::Unit;

    type Place = L::Place;

    ghost exact = { λ s x. percent_of s.percent (L.exact s.base x) };

    ghost low = { λ s x. percent_down s.percent (L.low s.base x) };

    ghost high = { λ s x. percent_up s.percent (L.high s.base x) };

    ghost slack = { λ s. percent_slack (L.slack s.base) };

    ghost reads = { λ l x h. wider _ (percent_reads l.percent l.lawful (L.reads l.base x h)) (omega arith) };

    fn read(&self, at: L::Place) -> Reading<L::Unit> {
        let whole = self.base.read(at);
        Reading {
            below: self.share(whole.below).down(),
            above: self.share(whole.above).up(),
        }
    }

    // One value alone is reckoned of that one alone underneath, so that a pile of layers works out no more than is asked for.
    fn below(&self, at: L::Place) -> Amount<L::Unit> {
        self.share(self.base.below(at)).down()
    }

    fn above(&self, at: L::Place) -> Amount<L::Unit> {
        self.share(self.base.above(at)).up()
    }

    fn slack(&self) -> Option<u32> {
        self.base.slack()?.checked_add(1)
    }
}

impl<L: FallingLaw> FallingLaw for Scale<L> {
    ghost falls = { λ l v w h k. percent_at_most l.percent _ _ (L.falls l.base v w h k) };
}

impl<L: DragLaw> DragLaw for Scale<L> {
    ghost rises = { λ l v w q h k low high. percent_at_most l.percent _ _ (L.rises l.base v w q h k low high) };
}
