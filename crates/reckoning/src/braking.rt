ghost use Rattle.std.specs.Prelude.{◌≡◌, ◌+◌, ◌*◌, ◌<◌, ◌≤◌, min};
ghost use Rattle.rules.specs.Kind.{kind};
ghost use Rattle.rules.specs.Stop.{brake_force, drag_in, train_drag, holding_force, delay_run, edge, step};
ghost use Rattle.rules.specs.Ratio.{ratio};

use crate::approach::Approach;
use crate::brake_ratio::BrakeRatio;
use crate::edges::edge;
use crate::run::Run;
use crate::step::Step;
use laws::{BrakeKind, Running, StockLaws};
use rules::Refusal;
use units::{Milli, SpecificForce, Speed};

// A train that brakes: what its approach reads of the sheet, how hard its blocks are pressed on, and the laws of its stock.
#[derive(Drop)]
pub(crate) struct Braking<'a, S> {
    pub(crate) approach: Approach,
    pressing: BrakeRatio,
    stock: &'a S,
    ghost pressed: { pressing ≡ ratio (approach.factor * approach.pressure) (10 * (approach.hauling + approach.trailing)) },
}

impl<'a, S: StockLaws> Braking<'a, S> {
    ghost use Rattle.reckoning.specs.Brakings.{train_of, IsStrong, StepAdded, Braked, Climbs, Climbed};

    pub(crate) fn new(approach: Approach, stock: &'a S) -> Braking<'a, S>
        ensures approach { result.approach ≡ approach }
        ensures stock { result.stock.now ≡ stock.now }
    {
        let pressed = approach.factor * approach.pressure;
        let weight = 10 * (approach.hauling + approach.trailing);
        Braking {
            approach,
            pressing: BrakeRatio::new(pressed, weight),
            stock,
        }
    }

    // The brake force at a speed.
    #[tactic(auto, unfolding(rules::specs::Stop::brake_force))]
    fn brake_force(&self, v: Speed) -> Milli
        ensures { result ≡ brake_force (train_of S.meaning self.now) v }
    {
        self.pressing.force(self.stock.friction_below(v))
    }

    // The brake force at the speed from which a train stops; refused where it is weak.
    pub(crate) fn strong_brake(&self, v: Speed) -> Result<Milli, Refusal>
        ensures { IsStrong (train_of S.meaning self.now) v result }
    {
        let brake = self.brake_force(v);
        if brake.count() < 1000 {
            return Err(Refusal::WeakBrake);
        }
        Ok(brake)
    }

    // The drag of the train in a step.
    #[tactic(auto, unfolding(rules::specs::Stop::train_drag))]
    fn drag(&self, step: Step) -> Milli
        ensures { result ≡ train_drag (train_of S.meaning self.now) step }
    {
        let train = &self.approach;
        self.coasting_drag(step)
            .mean(train.hauling, self.wagon_drag(step), train.trailing)
    }

    // The drag of a coasting locomotive in a step, at its lower speed.
    fn coasting_drag(&self, step: Step) -> Milli
        ensures { result ≡ drag_in (train_of S.meaning self.now).laws.coasting step self.now.approach.gross }
    {
        self.stock.coasting_below(self.running(step))
    }

    // The drag of the wagons in a step, as far as there are any: without wagons their law is not read.
    fn wagon_drag(&self, step: Step) -> Milli
        ensures { self.now.approach.trailing * result ≡ self.now.approach.trailing * drag_in (train_of S.meaning self.now).laws.wagon step self.now.approach.gross }
    {
        if self.approach.trailing == 0 {
            return Milli::new(0);
        }
        self.stock.wagon_below(self.running(step))
    }

    // Where a drag is read in a step: at its lower speed.
    fn running(&self, step: Step) -> Running
        ensures { (result.speed ≡ step.bottom) × (result.gross ≡ self.now.approach.gross) }
    {
        Running {
            speed: step.bottom(),
            gross: self.approach.gross,
        }
    }

    // The force that holds the train back in a step; the brake force is that at its upper speed.
    #[tactic(auto, unfolding(rules::specs::Stop::holding_force))]
    #[inline(always)]
    fn holding(&self, step: Step) -> SpecificForce
        ensures { result ≡ holding_force (train_of S.meaning self.now) step }
    {
        let brake = self.brake_force(step.top());
        let drag = self.drag(step);
        SpecificForce::holding(brake, drag, self.approach.lowest)
    }

    // The run from a speed: one step down to the edge where a run begins, and that run; refused where the train is not held in
    // that step. In line, since loops are made of it.
    #[inline(always)]
    pub(crate) fn run_over(&self, below: &Run, v: Speed) -> Result<Run, Refusal>
        requires few { below.now.steps ≤ 26 }
        requires above { edge below.now.steps ≤ v }
        ensures { StepAdded (holding_force (train_of S.meaning self.now)) (step v (edge below.now.steps)) below.now result }
    {
        let step = Step::new(v, edge(below.steps));
        let force = self.holding(step);
        if force.milli() < 1000 {
            return Err(Refusal::WeakStep);
        }
        Ok(below.with(step, force))
    }

    // The steps of a stop from a speed, from the lowest one on; refused where the train is not held in one.
    #[tactic(auto, using(crate::proofs::Brakings::begins, crate::proofs::Brakings::ends))]
    pub(crate) fn run(&self, v: Speed) -> Result<Run, Refusal>
        ensures { Braked (holding_force (train_of S.meaning self.now)) v result }
    {
        let mut run = Run::none();
        while edge(run.steps) < v {
            run = self.climb(&run, v)?;
        }
        Ok(run)
    }

    // The lowest steps of a stop from a speed, one more than in a run: up to the next edge, or to that speed.
    #[tactic(auto, using(crate::proofs::Brakings::again, crate::proofs::Brakings::gives_way))]
    fn climb(&self, run: &Run, v: Speed) -> Result<Run, Refusal>
        requires climbs { Climbs (holding_force (train_of S.meaning self.now)) v run.now }
        requires below { edge run.now.steps < v }
        ensures { Climbed (holding_force (train_of S.meaning self.now)) v run.now result }
    {
        self.run_over(run, edge(run.steps + 1).min(v))
    }

    // The figures of a stop from a speed, by its brake force and its run: the distance in millimetres, with what the train runs
    // before the brakes hold; the least force in milli; and the number of steps.
    #[tactic(auto, using(crate::proofs::Bounds::delay_most))]
    pub(crate) fn figures<K: BrakeKind>(&self, v: Speed, brake: Milli, run: &Run) -> (u32, u32, u32)
        requires { 1000 ≤ brake }
        ensures { result ≡ (delay_run (kind K.T K.C) v brake self.now.approach.lowest + run.now.distance, min run.now.least brake, run.now.steps) }
    {
        let distance = self.delay::<K>(v, brake) as u32 + run.distance;
        let least = run.least.min(brake);
        (distance, least.count(), run.steps)
    }

    // The distance in millimetres that the train runs before the brakes hold.
    #[tactic(auto, using(crate::proofs::Bounds::delay_small), unfolding(rules::specs::Stop::delay_run))]
    fn delay<K: BrakeKind>(&self, v: Speed, brake: Milli) -> u64
        requires { 1000 ≤ brake }
        ensures { result ≡ delay_run (kind K.T K.C) v brake self.now.approach.lowest }
    {
        let brake = u64::from(brake.count());
        let fall = u64::from(self.approach.lowest.fall().count());
        let parts = 1000 * u64::from(K::T) * brake + 1000 * u64::from(K::C) * fall;
        (u64::from(v.tenths()) * parts).div_ceil(36 * brake)
    }
}
