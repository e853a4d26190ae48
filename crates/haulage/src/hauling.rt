ghost use Rattle.rules.specs.Mass.{moving, starting, balanced};
ghost use Rattle.haulage.specs.Limits.{IsLimit, moves};
ghost use Rattle.std.specs.Prelude.{◌≡◌, ◌+◌, ◌*◌, ◌≤◌};

use laws::{Running, StockLaws};
use train::Totals;
use units::{Gross, Kgf, Milli, Speed};

// The greatest mass of wagons that is told, in tenths of a tonne.
pub(crate) const GREATEST: u32 = 100_000;

// A way of hauling as it is read of the laws: the pull of one locomotive, its drag when it pulls, the drag of the wagons, what is
// added to a grade, and what a coupler takes.
#[derive(Clone, Copy)]
pub(crate) struct Hauling {
    pull: Kgf,
    pulling: Milli,
    wagon: Milli,
    added: Milli,
    coupler: Kgf,
}

impl Hauling {
    ghost use Rattle.haulage.specs.Haulings.{cautious, readings_on, engines_of};

    // At a speed.
    pub(crate) fn moving<S: StockLaws>(stock: &S, v: Speed, gross: Gross) -> Hauling
        ensures { result ≡ cautious (S.meaning stock.now) gross (moving v) }
    {
        Hauling {
            pull: stock.pull_below(v),
            pulling: stock.pulling_above(Running { speed: v, gross }),
            wagon: stock.wagon_above(Running { speed: v, gross }),
            added: Milli::new(0),
            coupler: Kgf::new(130_000),
        }
    }

    // From a stand, against 4 kgf/t more: the pull as it is at rest, and the drags at 10 km/h.
    pub(crate) fn starting<S: StockLaws>(stock: &S, gross: Gross) -> Hauling
        ensures { result ≡ cautious (S.meaning stock.now) gross starting }
    {
        let v = Speed::capped(100);
        Hauling {
            pull: stock.pull_below(Speed::capped(0)),
            pulling: stock.pulling_above(Running { speed: v, gross }),
            wagon: stock.wagon_above(Running { speed: v, gross }),
            added: Milli::new(4000),
            coupler: Kgf::new(95_000),
        }
    }

    // The greatest mass of wagons, in tenths of a tonne, that the locomotives of a train haul so on a rise.
    pub(crate) fn limit(&self, train: Totals, rise: Milli) -> u32
        ensures { IsLimit (balanced (engines_of train) self.now.coupler (readings_on self.now rise)) result }
    {
        let own = self.resistance(self.pulling, rise, train.hauling);
        let Some(spare) = self.pull_of(train.locomotives).checked_sub(own) else {
            return 0;
        };
        let coupler = self.coupler.ten_thousandths();
        moved_by(spare.min(coupler), self.resistance(self.wagon, rise, 1))
    }

    // The pull of so many locomotives together, in ten-thousandths of kgf.
    #[tactic(auto, using(crate::proofs::Limits::pulled))]
    fn pull_of(&self, locomotives: u32) -> u64
        requires { locomotives ≤ 120 }
        ensures { result ≡ 10000 * locomotives * self.now.pull }
    {
        u64::from(locomotives) * self.pull.ten_thousandths()
    }

    // What resists the motion of a mass in tenths of a tonne, by its drag, on a rise: in ten-thousandths of kgf.
    fn resistance(&self, drag: Milli, rise: Milli, mass: u32) -> u64
        requires { mass ≤ 240000 }
        ensures { result ≡ mass * (drag + (rise + self.now.added)) }
    {
        drag.on_mass(mass) + rise.on_mass(mass) + self.added.on_mass(mass)
    }
}

// How many tenths of a tonne a force moves, each of which resists by so much; both in ten-thousandths of kgf.
#[tactic(auto, using(crate::proofs::Limits::moved))]
fn moved_by(force: u64, resistance: u64) -> u32
    ensures { IsLimit (moves force resistance) result }
{
    force
        .checked_div(resistance)
        .unwrap_or(u64::MAX)
        .min(u64::from(GREATEST)) as u32
}
