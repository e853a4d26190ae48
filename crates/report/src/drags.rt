ghost use Rattle.report.specs.Drags.{tried, tried_at_limits};
ghost use Rattle.report.specs.Printed.{outcome_text, passed_text, tried_text};
ghost use Rattle.rules.specs.Formulas.{QuadraticRange};
ghost use Rattle.rules.specs.Refusals.{MadeIf};
ghost use Rattle.std.specs.Prelude.{◌≡◌, Some, map};

use crate::outcome::{Outcome, Passed};
use laws::QuadraticDrag;
use std::fmt;

/// Three constants of a quadratic drag as they are given, and whether a drag is made of them.
#[derive(Drop)]
pub struct TriedDrag {
    pub a: u32,
    pub b: u32,
    pub c: u32,
    pub outcome: Outcome<Passed>,
}

impl TriedDrag {
    /// What comes of three constants.
    pub fn of(a: u32, b: u32, c: u32) -> TriedDrag
        ensures constants { (result.a ≡ a) × (result.b ≡ b) × (result.c ≡ c) }
        ensures outcome { MadeIf (QuadraticRange a b c) (λ _. Unit {0}) result.outcome.0 }
    {
        TriedDrag {
            a,
            b,
            c,
            outcome: Outcome::of(QuadraticDrag::new(a, b, c)),
        }
    }
}

impl fmt::Display for TriedDrag {
    ghost output = { λ d. tried_text d.a d.b d.c (outcome_text (λ _. Some passed_text) d.outcome.0) };

    fn fmt<W: fmt::Write>(&self, f: &mut fmt::Formatter<W>) -> fmt::Result {
        let TriedDrag { a, b, c, outcome } = self;
        write!(f, "quadratic drag {a} {b} {c}: {outcome}")
    }
}

/// The greatest constants of a quadratic drag together, and one more than the greatest of each alone.
pub fn drags_at_limits() -> [TriedDrag; 4]
    ensures { map tried result ≡ tried_at_limits }
{
    [
        TriedDrag::of(100_000_000, 1_000_000, 10_000),
        TriedDrag::of(100_000_001, 0, 0),
        TriedDrag::of(0, 1_000_001, 0),
        TriedDrag::of(0, 0, 10_001),
    ]
}
