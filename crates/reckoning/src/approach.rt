ghost use Rattle.std.specs.Prelude.{◌≡◌, ◌+◌, ◌*◌, ◌≤◌, ◌≤ℤ◌, pos, negsuc, [], nat_le, IfOk};
ghost use Rattle.rules.specs.Book.{per_wagon};
ghost use Rattle.rules.specs.Questions.{braking, place_in_range, stop_figures};
ghost use Rattle.rules.specs.Kind.{kind};
ghost use Rattle.rules.specs.Refusals.{first_no, decide, stop_reply};

use crate::braking::Braking;
use laws::{BrakeKind, StockLaws};
use rules::Refusal;
use sheet::Sheet;
use train::Totals;
use units::{Grade, Gross, Speed};

// What a stop reads of the sheet besides its speed: the factor in tenths of full braking, the masses of locomotives and
// wagons and the pressure of the brakes in tenths of a tonne, the gross mass per wagon, the braking distance in metres,
// and the lowest low grade of the sections that lie in it.
//
// Not a model: its value would be the approach of the rules, which holds the laws, and a model's value may hold no functions.
#[derive(Clone, Copy)]
pub(crate) struct Approach {
    pub(crate) factor: u32,
    pub(crate) hauling: u32,
    pub(crate) trailing: u32,
    pub(crate) pressure: u32,
    pub(crate) gross: Gross,
    pub(crate) reach: u32,
    pub(crate) lowest: Grade,
    ghost braking: { factor ≤ 10 },
    ghost some: { 1 ≤ hauling },
    ghost light: { hauling + trailing ≤ 240000 },
    ghost pressed: { pressure ≤ hauling + trailing },
    ghost near: { reach ≤ 4000 },
    ghost deep: { negsuc 39999 ≤ℤ lowest },
    ghost high: { lowest ≤ℤ pos 47000 },
}

impl Approach {
    ghost use Rattle.reckoning.specs.Approaches.{approach_of, Approached};
    ghost use Rattle.rules.specs.Law.{Stock};
    ghost use Rattle.rules.specs.Promises.{LawfulApproach};
    ghost use Rattle.rules.specs.Stop.{approach_at, stop_window};

    // The approach from a place of the sheet, in metres from the start of the line, by a factor in tenths of full braking.
    pub(crate) fn of(sheet: &Sheet, place: u32, factor: u32) -> Result<Approach, Refusal>
        ensures value { Approached sheet.now place factor result }
        ensures lawful { IfOk result (λ _. (s : Stock) → LawfulApproach (approach_at s sheet.now place factor) (stop_window sheet.now place)) }
    {
        if !is_in_range(place, factor) {
            return Err(Refusal::QuestionOutOfRange);
        }
        let totals = sheet.consist().totals();
        if totals.locomotives == 0 {
            return Err(Refusal::NoLocomotive);
        }
        let end = place + sheet.distance();
        if sheet.line().metres() < end {
            return Err(Refusal::LineTooShort);
        }
        Ok(Approach {
            factor,
            hauling: totals.hauling,
            trailing: totals.trailing,
            pressure: totals.pressure,
            gross: mass_per_wagon(totals),
            reach: sheet.distance(),
            lowest: sheet.line().lowest_low_grade(place, end),
        })
    }

    // How the train stops from a speed, by a kind of brake and a stock: its distance in millimetres, the least force in milli, and
    // the number of its steps; refused where a force does not hold the train. Whether it stops in time is not judged.
    #[tactic(auto, using(crate::proofs::Brakings::least_under))]
    pub(crate) fn reckon<K: BrakeKind, S: StockLaws>(
        &self,
        stock: &S,
        v: Speed,
    ) -> Result<(u32, u32, u32), Refusal>
        ensures { stop_reply result ≡ decide (first_no (braking (approach_of self.now (S.meaning stock.now)) v [])) (stop_figures (kind K.T K.C) (approach_of self.now (S.meaning stock.now)) v) }
    {
        let train = Braking::new(*self, stock);
        let brake = train.strong_brake(v)?;
        let run = train.run(v)?;
        Ok(train.figures::<K>(v, brake, &run))
    }

    // Whether a distance in millimetres lies within the braking distance.
    pub(crate) fn is_within_reach(&self, distance: u32) -> bool
        ensures { result ≡ nat_le distance (1000 * self.now.reach) }
    {
        distance <= 1000 * self.reach
    }
}

// A place up to 4,000,000, and a factor of 1 to 10.
fn is_in_range(place: u32, factor: u32) -> bool
    ensures { result ≡ place_in_range place factor }
{
    place <= 4_000_000 && (1..=10).contains(&factor)
}

// The gross mass per wagon at which a stop reads every drag.
#[tactic(auto, using(crate::proofs::Bounds::per_wagon_range))]
fn mass_per_wagon(totals: Totals) -> Gross
    ensures { result ≡ per_wagon totals.trailing totals.wagons }
{
    Gross::from_tenths(tenths_per_wagon(totals.trailing, totals.wagons)).unwrap()
}

// A mass over a number of wagons, rounded up; 5 t without wagons.
fn tenths_per_wagon(mass: u32, wagons: u32) -> u32
    ensures { result ≡ per_wagon mass wagons }
{
    if wagons == 0 {
        50
    } else {
        mass.div_ceil(wagons)
    }
}
