ghost use Rattle.std.specs.Prelude.{◌≡◌};
ghost use Rattle.rules.specs.Layers.{smaller_of, smaller_whole, smaller_slack};
ghost use Rattle.std.proofs.Common.{arith};
ghost use Rattle.rules.proofs.Layers.{smaller_reads, smaller_at_most};
ghost use Rattle.rules.proofs.Readings.{wider};

use laws::{FallingLaw, Law, Reading};
use units::{Amount, Speed};

/// The lesser of two frictions or of two pulls, at each speed.
#[derive(Drop)]
pub struct Lesser<F, S> {
    first: F,
    second: S,
}

impl<F: FallingLaw, S: FallingLaw<Unit = F::Unit>> Lesser<F, S> {
    /// The lesser of these two laws. There cannot be one of a friction and a pull.
    pub fn new(first: F, second: S) -> Lesser<F, S>
        ensures { (result.first ≡ first) × (result.second ≡ second) }
    {
        Lesser { first, second }
    }
}

impl<F: FallingLaw, S: FallingLaw<Unit = F::Unit>> Law for Lesser<F, S> {
    type Unit = F::Unit;

    type Place = Speed;

    ghost exact = { λ m v. smaller_of (F.exact m.first v) (S.exact m.second v) };

    ghost low = { λ m v. smaller_whole (F.low m.first v) (S.low m.second v) };

    ghost high = { λ m v. smaller_whole (F.high m.first v) (S.high m.second v) };

    ghost slack = { λ m. smaller_slack (F.slack m.first) (S.slack m.second) };

    ghost reads = { λ l v h. wider _ (smaller_reads (F.reads l.first v h) (S.reads l.second v h)) (omega arith) };

    fn read(&self, v: Speed) -> Reading<F::Unit> {
        let first = self.first.read(v);
        let second = self.second.read(v);
        Reading {
            below: first.below.min(second.below),
            above: first.above.min(second.above),
        }
    }

    // One value alone is the lesser of those alone underneath, so that a pile of layers works out no more than is asked for.
    fn below(&self, v: Speed) -> Amount<F::Unit> {
        self.first.below(v).min(self.second.below(v))
    }

    fn above(&self, v: Speed) -> Amount<F::Unit> {
        self.first.above(v).min(self.second.above(v))
    }

    fn slack(&self) -> Option<u32> {
        Some(self.first.slack()?.max(self.second.slack()?))
    }
}

impl<F: FallingLaw, S: FallingLaw<Unit = F::Unit>> FallingLaw for Lesser<F, S> {
    ghost falls = { λ l v w h k. smaller_at_most _ _ _ _ (F.reads l.first w k).proper (S.reads l.second w k).proper (F.falls l.first v w h k) (S.falls l.second v w h k) };
}
