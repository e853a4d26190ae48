ghost use Rattle.std.specs.Prelude.{◌≡◌, ◌≤◌};
ghost use Rattle.rules.specs.Refusals.{MadeOr};
ghost use Rattle.line.specs.Curve.{curve_of, IsCurve};

use rules::Refusal;
use std::marker::Model;

/// A curve: its length, 1 to 20,000 m, and its radius, 100 to 20,000 m.
#[derive(Clone, Copy, PartialEq, Eq, Debug)]
pub struct Curve {
    metres: u32,
    radius: u32,
}

impl Model for Curve {
    ghost use Rattle.line.specs.Curve.{CurveFigures, IsCurve, curve_of};

    ghost Value = { CurveFigures };

    ghost view = { λ c. curve_of c.metres c.radius };

    ghost invariant = { λ c. IsCurve (curve_of c.metres c.radius) };

    ghost inverse = { λ f. record { metres = f.metres; radius = f.radius } };
}

impl Curve {
    /// The curve of this length and radius; refused with 4 where either is out of its range.
    pub fn new(metres: u32, radius: u32) -> Result<Curve, Refusal>
        ensures { MadeOr 4 (IsCurve (curve_of metres radius)) (λ c. c ≡ curve_of metres radius) result }
    {
        if (1..=20_000).contains(&metres) && (100..=20_000).contains(&radius) {
            Ok(Curve { metres, radius })
        } else {
            Err(Refusal::UnlawfulSection)
        }
    }

    /// The length in metres.
    pub fn metres(self) -> u32
        ensures value { result ≡ self.metres }
        ensures least { 1 ≤ result }
        ensures most { result ≤ 20000 }
    {
        self.metres
    }

    /// The radius in metres.
    pub fn radius(self) -> u32
        ensures value { result ≡ self.radius }
        ensures least { 100 ≤ result }
        ensures most { result ≤ 20000 }
    {
        self.radius
    }
}
