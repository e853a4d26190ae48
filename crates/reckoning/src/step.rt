ghost use Rattle.std.specs.Prelude.{◌≡◌, ◌≤◌, ◌≤ℤ◌, pos};
ghost use Rattle.rules.specs.Fraction.{natural_of};
ghost use Rattle.reckoning.specs.Bounds.{step_limit};
ghost use Rattle.rules.specs.Stop.{step, braking_run};

use std::marker::Model;
use units::{SpecificForce, Speed};

/// One step of a stop: from a speed down to the next lower edge.
#[derive(Clone, Copy)]
pub(crate) struct Step {
    top: Speed,
    bottom: Speed,
}

impl Model for Step {
    ghost use Rattle.std.specs.Prelude.{◌≤◌};
    ghost use Rattle.rules.specs.Stop.{Step as RuleStep, step};

    ghost Value = { RuleStep };

    ghost view = { λ s. step s.top s.bottom };

    ghost invariant = { λ s. s.bottom ≤ s.top };

    ghost inverse = { λ s. record { top = s.top; bottom = s.bottom } };
}

impl Step {
    // From a speed down to one that is not higher.
    pub(crate) fn new(top: Speed, bottom: Speed) -> Step
        requires { bottom ≤ top }
        ensures { result ≡ step top bottom }
    {
        Step { top, bottom }
    }

    // The speed at which the step begins.
    pub(crate) fn top(self) -> Speed
        ensures { result ≡ self.top }
    {
        self.top
    }

    // The speed at which the step ends.
    pub(crate) fn bottom(self) -> Speed
        ensures { result ≡ self.bottom }
    {
        self.bottom
    }

    // The distance in millimetres of the step under a force of at least 1 kgf/t.
    #[tactic(auto, unfolding(rules::specs::Stop::braking_run))]
    pub(crate) fn run(self, force: SpecificForce) -> u32
        requires { pos 1000 ≤ℤ force }
        ensures value { result ≡ braking_run self (natural_of force) }
        ensures small { result ≤ step_limit }
    {
        let top = u64::from(self.top.tenths());
        let bottom = u64::from(self.bottom.tenths());
        let work = 41_700 * (top * top - bottom * bottom);
        work.div_ceil(force.milli() as u64) as u32
    }
}
