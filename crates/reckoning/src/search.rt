ghost use Rattle.reckoning.specs.Approaches.{approach_of};
ghost use Rattle.reckoning.specs.Brakings.{train_of, IsBelow, RunInTime};
ghost use Rattle.reckoning.specs.Speeds.{last_answered, PermitsOver};
ghost use Rattle.rules.specs.Kind.{kind};
ghost use Rattle.rules.specs.Stop.{edge, holding_force};
ghost use Rattle.std.specs.Prelude.{◌≡◌, ◌+◌, ◌<◌, ◌==◌, cond, MatchOption};

use crate::approach::Approach;
use crate::braking::Braking;
use crate::edges::edge;
use crate::run::Run;
use laws::{BrakeKind, StockLaws};
use rules::Refusal;
use units::Speed;

// The last multiple of 5 km/h from rest on at which the train stops within the braking distance, and at every one below it too;
// refused where it is not held at rest.
#[tactic(auto, using(crate::proofs::Permitting::delay_at_rest))]
pub(crate) fn permitted_speed<K: BrakeKind, S: StockLaws>(
    approach: &Approach,
    stock: &S,
) -> Result<Speed, Refusal>
    ensures { PermitsOver (kind K.T K.C) (approach_of approach.now (S.meaning stock.now)) result }
{
    let train = Braking::new(*approach, stock);
    // At rest a train that is held needs no distance.
    train.strong_brake(Speed::capped(0))?;
    Ok(last_in_time::<K, S>(&train))
}

// The same of a train that is held at rest.
#[tactic(auto, using(rules::proofs::Speeds::search_fails, rules::proofs::Speeds::search_ends, crate::proofs::Permitting::begins, crate::proofs::Permitting::goes_on, crate::proofs::Brakings::room))]
fn last_in_time<K: BrakeKind, S: StockLaws>(train: &Braking<S>) -> Speed
    ensures { result ≡ last_answered (kind K.T K.C) (train_of S.meaning train.now) }
{
    let mut greatest = Speed::capped(0);
    let mut below = Run::none();
    while let Some(next) = faster(greatest) {
        let Ok(run) = run_in_time::<K, S>(train, &below, next) else {
            return greatest;
        };
        greatest = next;
        below = from_edge(below, run, next);
    }
    greatest
}

// The run from a speed, over that from the next edge below; refused where the train does not stop within the braking distance.
#[tactic(auto, using(crate::proofs::Brakings::room, crate::proofs::Brakings::reaches, crate::proofs::Brakings::stays_weak), unfolding(crate::specs::Speeds::is_answered))]
fn run_in_time<K: BrakeKind, S: StockLaws>(
    train: &Braking<S>,
    below: &Run,
    v: Speed,
) -> Result<Run, Refusal>
    requires { IsBelow (holding_force (train_of S.meaning train.now)) v below.now }
    ensures { RunInTime (kind K.T K.C) (train_of S.meaning train.now) v result }
{
    let brake = train.strong_brake(v)?;
    let run = train.run_over(below, v)?;
    let (distance, _, _) = train.figures::<K>(v, brake, &run);
    if !train.approach.is_within_reach(distance) {
        return Err(Refusal::StopsTooFar);
    }
    Ok(run)
}

// The run from the highest edge that is not above a speed: the one from the speed itself where it is an edge, and else that
// from the edge below it.
fn from_edge(below: Run, run: Run, v: Speed) -> Run
    ensures { result ≡ cond (v == edge run.steps) run below }
{
    if v == edge(run.steps) { run } else { below }
}

// The next multiple of 5 km/h, up to 160 km/h.
fn faster(v: Speed) -> Option<Speed>
    ensures { MatchOption result (1600 < v + 50) (λ w. w ≡ v + 50) }
{
    Speed::from_tenths(v.tenths() + 50).ok()
}
