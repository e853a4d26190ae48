ghost use Rattle.std.specs.Prelude.{◌≡◌, ◌+◌, ◌*◌, ◌≤◌, ◌≤ℤ◌, pos, min};
ghost use Rattle.rules.specs.Fraction.{natural_of};
ghost use Rattle.reckoning.specs.Bounds.{step_limit};
ghost use Rattle.rules.specs.Stop.{braking_run};

use crate::step::Step;
use units::{Milli, SpecificForce};

// The steps from a speed down to a stand: their distance in millimetres, the least of their forces, which no brake force exceeds
// where there is no step, and their number. A run of k steps that begins at an edge begins at edge k.
#[derive(Clone, Copy)]
pub(crate) struct Run {
    pub(crate) distance: u32,
    pub(crate) least: Milli,
    pub(crate) steps: u32,
    ghost few: { steps ≤ 27 },
    ghost bounded: { least ≤ 4294967295 },
    ghost small: { distance ≤ step_limit * steps },
}

impl Run {
    ghost use Rattle.reckoning.specs.Brakings.{no_less};

    // No step, and so no force.
    pub(crate) fn none() -> Run
        ensures distance { result.distance ≡ 0 }
        ensures least { result.least ≡ no_less }
        ensures steps { result.steps ≡ 0 }
    {
        Run {
            distance: 0,
            least: Milli::new(u32::MAX),
            steps: 0,
        }
    }

    // With one step more, under a force of at least 1 kgf/t.
    pub(crate) fn with(&self, step: Step, force: SpecificForce) -> Run
        requires force { pos 1000 ≤ℤ force }
        requires few { self.now.steps ≤ 26 }
        ensures distance { result.distance ≡ self.now.distance + braking_run step (natural_of force) }
        ensures least { result.least ≡ min self.now.least (natural_of force) }
        ensures steps { result.steps ≡ self.now.steps + 1 }
    {
        Run {
            distance: self.distance + step.run(force),
            least: self.least.min(force.positive_part()),
            steps: self.steps + 1,
        }
    }
}
