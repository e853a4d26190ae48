ghost use Rattle.std.specs.Prelude.{◌≡◌, ◌*◌, ◌/◌, ◌≤◌};
ghost use Rattle.rules.specs.Ratio.{ratio};

use std::marker::Model;
use units::{Friction, Milli};

// The share of a train's weight with which its blocks are pressed on, never more than the whole.
#[derive(Clone, Copy)]
pub(crate) struct BrakeRatio {
    pressed: u32,
    weight: u32,
}

impl Model for BrakeRatio {
    ghost use Rattle.std.specs.Prelude.{◌≤◌};
    ghost use Rattle.rules.specs.Ratio.{Ratio, ratio};

    ghost Value = { Ratio };

    ghost view = { λ s. ratio s.pressed s.weight };

    ghost invariant = { λ s. (1 ≤ s.weight) × (s.pressed ≤ s.weight) };

    ghost inverse = { λ x. record { pressed = x.num; weight = x.den } };
}

impl BrakeRatio {
    // The share that the pressed weight has in the weight.
    pub(crate) fn new(pressed: u32, weight: u32) -> BrakeRatio
        requires some { 1 ≤ weight }
        requires within { pressed ≤ weight }
        ensures { result ≡ ratio pressed weight }
    {
        BrakeRatio { pressed, weight }
    }

    // The brake force of blocks of a friction, per mass of the train, rounded down.
    pub(crate) fn force(self, friction: Friction) -> Milli
        ensures { result ≡ self.num * friction / self.den }
    {
        Milli::new(self.part_of(friction.count()))
    }

    // The part of n that the share is, rounded down.
    fn part_of(self, n: u32) -> u32
        ensures { result ≡ self.num * n / self.den }
    {
        (u64::from(self.pressed) * u64::from(n) / u64::from(self.weight)) as u32
    }
}
