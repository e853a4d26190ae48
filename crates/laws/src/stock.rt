ghost use Rattle.std.specs.Prelude.{◌≡◌};
ghost use Rattle.rules.specs.Allowance.{as_u32, combined_slack};
ghost use Rattle.rules.specs.Law.{Falling, Drag, Stock as StockMeaning, LawfulFalling, LawfulDrag, LawfulStock, falling, stock};
ghost use Rattle.laws.specs.Drags.{drag_by, running};

use crate::law::{DragLaw, FallingLaw, Running};
use units::{Friction, Kgf, KilogramsForce, Milli, Millionths, Speed};

// A stock takes whatever states the laws of a locomotive, and passes its pull and its drags on; over the three laws of a `Locomotive`
// alone it would ask that type of a caller.

/// Whatever states the laws of one locomotive.
pub trait LocomotiveLaws {
    ghost pull: { Self → Falling };

    ghost pulling: { Self → Drag };

    ghost coasting: { Self → Drag };

    /// The value below its pull at a speed.
    fn pull_below(&self, v: Speed) -> Kgf
        ensures { result ≡ (pull self.now).below v };

    /// The value above its drag when it pulls.
    fn pulling_above(&self, at: Running) -> Milli
        ensures { result ≡ (pulling self.now).above at.speed at.gross };

    /// The value below its drag when it coasts.
    fn coasting_below(&self, at: Running) -> Milli
        ensures { result ≡ (coasting self.now).below at.speed at.gross };

    /// The slack of its drag when it coasts; none where 32 bits do not hold it.
    fn coasting_slack(&self) -> Option<u32>
        ensures { result ≡ as_u32 (coasting self.now).slack };

    ghost lawful: { (e : Self) → LawfulFalling (pull e) × LawfulDrag (pulling e) × LawfulDrag (coasting e) };
}

/// The laws of one locomotive: its pull, and its drag when it pulls and when it coasts.
#[derive(Drop)]
pub struct Locomotive<L, P, C> {
    pub pull: L,
    pub pulling: P,
    pub coasting: C,
}

impl<L, P, C> LocomotiveLaws for Locomotive<L, P, C>
where
    L: FallingLaw<Unit = KilogramsForce>,
    P: DragLaw,
    C: DragLaw,
{
    ghost pull = { λ e. falling (L.exact e.pull) (L.low e.pull) (L.high e.pull) (L.slack e.pull) };

    ghost pulling = { λ e. drag_by (P.exact e.pulling) (P.low e.pulling) (P.high e.pulling) (P.slack e.pulling) };

    ghost coasting = { λ e. drag_by (C.exact e.coasting) (C.low e.coasting) (C.high e.coasting) (C.slack e.coasting) };

    ghost lawful = { λ e. (
      record { reads = L.reads e.pull; falls = L.falls e.pull },
      record { reads = λ v q h low high. P.reads e.pulling (running v q) (h, low, high); rises = P.rises e.pulling },
      record { reads = λ v q h low high. C.reads e.coasting (running v q) (h, low, high); rises = C.rises e.coasting },
    ) };

    fn pull_below(&self, v: Speed) -> Kgf {
        self.pull.below(v)
    }

    fn pulling_above(&self, at: Running) -> Milli {
        self.pulling.above(at)
    }

    fn coasting_below(&self, at: Running) -> Milli {
        self.coasting.below(at)
    }

    fn coasting_slack(&self) -> Option<u32> {
        self.coasting.slack()
    }
}

/// Whatever states the laws of a train.
pub trait StockLaws {
    ghost meaning: { Self → StockMeaning };

    /// The value below the brake friction at a speed.
    fn friction_below(&self, v: Speed) -> Friction
        ensures { result ≡ (meaning self.now).friction.below v };

    /// The value below the pull of one locomotive at a speed.
    fn pull_below(&self, v: Speed) -> Kgf
        ensures { result ≡ (meaning self.now).pull.below v };

    /// The value above the drag of a locomotive that pulls.
    fn pulling_above(&self, at: Running) -> Milli
        ensures { result ≡ (meaning self.now).pulling.above at.speed at.gross };

    /// The value below the drag of a coasting locomotive.
    fn coasting_below(&self, at: Running) -> Milli
        ensures { result ≡ (meaning self.now).coasting.below at.speed at.gross };

    /// The value below the drag of the wagons.
    fn wagon_below(&self, at: Running) -> Milli
        ensures { result ≡ (meaning self.now).wagon.below at.speed at.gross };

    /// The value above the drag of the wagons.
    fn wagon_above(&self, at: Running) -> Milli
        ensures { result ≡ (meaning self.now).wagon.above at.speed at.gross };

    /// By how much in milli a force that holds a train of these laws back may fall short of the exact one: the slack of friction,
    /// the greater slack of coasting drag and wagon drag, and 3 for rounding; none where 32 bits do not hold it.
    fn combined_slack(&self) -> Option<u32>
        ensures { result ≡ as_u32 (combined_slack (meaning self.now)) };

    ghost lawful: { (s : Self) → LawfulStock (meaning s) };
}

/// The laws of a train: the friction of its brakes, the laws of one of its locomotives, and the drag of its wagons.
#[derive(Drop)]
pub struct Stock<F, E, W> {
    pub friction: F,
    pub locomotive: E,
    pub wagon: W,
}

impl<F, E, W> StockLaws for Stock<F, E, W>
where
    F: FallingLaw<Unit = Millionths>,
    E: LocomotiveLaws,
    W: DragLaw,
{
    ghost meaning = { λ s. stock
        (falling (F.exact s.friction) (F.low s.friction) (F.high s.friction) (F.slack s.friction))
        (E.pull s.locomotive)
        (E.pulling s.locomotive)
        (E.coasting s.locomotive)
        (drag_by (W.exact s.wagon) (W.low s.wagon) (W.high s.wagon) (W.slack s.wagon)) };

    ghost lawful = { λ s.
        let own = E.lawful s.locomotive in
        record {
          friction = record { reads = F.reads s.friction; falls = F.falls s.friction };
          pull = own.0;
          pulling = own.1;
          coasting = own.2;
          wagon = record { reads = λ v q h low high. W.reads s.wagon (running v q) (h, low, high); rises = W.rises s.wagon };
        } };

    fn friction_below(&self, v: Speed) -> Friction {
        self.friction.below(v)
    }

    fn pull_below(&self, v: Speed) -> Kgf {
        self.locomotive.pull_below(v)
    }

    fn pulling_above(&self, at: Running) -> Milli {
        self.locomotive.pulling_above(at)
    }

    fn coasting_below(&self, at: Running) -> Milli {
        self.locomotive.coasting_below(at)
    }

    fn wagon_below(&self, at: Running) -> Milli {
        self.wagon.below(at)
    }

    fn wagon_above(&self, at: Running) -> Milli {
        self.wagon.above(at)
    }

    fn combined_slack(&self) -> Option<u32> {
        let drags = self.locomotive.coasting_slack()?.max(self.wagon.slack()?);
        self.friction.slack()?.checked_add(drags)?.checked_add(3)
    }
}
