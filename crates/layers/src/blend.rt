ghost use Rattle.std.specs.Prelude.{◌≡◌, ◌+◌, ◌*◌, ◌≤◌};
ghost use Rattle.rules.specs.Layers.{BlendRange, blend_of, blend_down, blend_up, blend_slack};
ghost use Rattle.rules.specs.Ratio.{ratio};
ghost use Rattle.rules.specs.Refusals.{MadeIf};
ghost use Rattle.std.proofs.Common.{arith};
ghost use Rattle.rules.proofs.Layers.{blend_reads, blend_at_most};
ghost use Rattle.rules.proofs.Readings.{wider};

use laws::{DragLaw, FallingLaw, Law, Reading};
use rules::Refusal;
use units::{Amount, ExactValue};

/// Two laws mixed a to b: two frictions, two pulls or two drags.
#[derive(Drop)]
pub struct Blend<F, S> {
    first: F,
    second: S,
    a: u32,
    b: u32,
    ghost lawful: { BlendRange a b },
}

impl<F: Law + Drop, S: Law<Unit = F::Unit, Place = F::Place> + Drop> Blend<F, S> {
    /// Two laws mixed a to b; refused where a or b is not 1 to 100. A friction, a pull and a drag cannot be mixed.
    pub fn new(first: F, second: S, a: u32, b: u32) -> Result<Blend<F, S>, Refusal>
        ensures { MadeIf (BlendRange a b) (λ m. (m.first ≡ first) × (m.second ≡ second) × (m.a ≡ a) × (m.b ≡ b)) result }
    {
        if (1..=100).contains(&a) && (1..=100).contains(&b) {
            Ok(Blend {
                first,
                second,
                a,
                b,
            })
        } else {
            Err(Refusal::UnlawfulLaw)
        }
    }
}

impl<F: Law, S: Law<Unit = F::Unit, Place = F::Place>> Blend<F, S> {
    // The mixture of a whole value of each law, exactly. Their bounds are those of the readings which they come from: a type for
    // them would be one more wrapped number.
    #[tactic(auto, using(rules::proofs::Layers::mixture_within))]
    fn mixture(&self, first: Amount<F::Unit>, second: Amount<F::Unit>) -> ExactValue<F::Unit>
        requires first { first ≤ 1000000 }
        requires second { second ≤ 1000000 }
        ensures { result ≡ ratio (self.now.a * first + self.now.b * second) (self.now.a + self.now.b) }
    {
        let sum = u64::from(self.a) * u64::from(first.count())
            + u64::from(self.b) * u64::from(second.count());
        ExactValue::of(sum, self.a + self.b).unwrap()
    }
}

impl<F: Law, S: Law<Unit = F::Unit, Place = F::Place>> Law for Blend<F, S> {
    type Unit = F::Unit;

    type Place = F::Place;

    ghost exact = { λ m x. blend_of m.a m.b (F.exact m.first x) (S.exact m.second x) };

    ghost low = { λ m x. blend_down m.a m.b (F.low m.first x) (S.low m.second x) };

    ghost high = { λ m x. blend_up m.a m.b (F.high m.first x) (S.high m.second x) };

    ghost slack = { λ m. blend_slack (F.slack m.first) (S.slack m.second) };

    ghost reads = { λ l x h. wider _ (blend_reads l.a l.b l.lawful (F.reads l.first x h) (S.reads l.second x h)) (omega arith) };

    fn read(&self, at: F::Place) -> Reading<F::Unit> {
        let first = self.first.read(at);
        let second = self.second.read(at);
        Reading {
            below: self.mixture(first.below, second.below).down(),
            above: self.mixture(first.above, second.above).up(),
        }
    }

    // One value alone is reckoned of those alone underneath, so that a pile of layers works out no more than is asked for.
    fn below(&self, at: F::Place) -> Amount<F::Unit> {
        self.mixture(self.first.below(at), self.second.below(at))
            .down()
    }

    fn above(&self, at: F::Place) -> Amount<F::Unit> {
        self.mixture(self.first.above(at), self.second.above(at))
            .up()
    }

    fn slack(&self) -> Option<u32> {
        self.first.slack()?.max(self.second.slack()?).checked_add(1)
    }
}

impl<F: FallingLaw, S: FallingLaw<Unit = F::Unit>> FallingLaw for Blend<F, S> {
    ghost falls = { λ l v w h k. blend_at_most l.a l.b _ _ _ _ (F.falls l.first v w h k) (S.falls l.second v w h k) };
}

impl<F: DragLaw, S: DragLaw> DragLaw for Blend<F, S> {
    ghost rises = { λ l v w q h k low high. blend_at_most l.a l.b _ _ _ _ (F.rises l.first v w q h k low high) (S.rises l.second v w q h k low high) };
}
