ghost use Rattle.report.specs.Printed.{outcome_text, passed_text};
ghost use Rattle.report.specs.Told.{stop_told};
ghost use Rattle.rules.specs.Refusals.{stop_reply, told};
ghost use Rattle.std.specs.Prelude.{◌≡◌, Some};

use rules::{Refusal, StopFigures};
use std::fmt;

/// What a call came to: what it answers, or `refused` and the number.
#[derive(Drop)]
pub struct Outcome<T>(pub Result<T, Refusal>);

/// What a call without figures answers: `passed`.
#[derive(Clone, Copy, PartialEq, Eq, Debug)]
pub struct Passed;

impl<T: fmt::Display> fmt::Display for Outcome<T> {
    ghost output = { λ x. outcome_text T.output x.0 };

    fn fmt<W: fmt::Write>(&self, f: &mut fmt::Formatter<W>) -> fmt::Result {
        match &self.0 {
            Ok(answer) => write!(f, "{answer}"),
            Err(refusal) => write!(f, "{refusal}"),
        }
    }
}

impl fmt::Display for Passed {
    ghost output = { λ _. Some passed_text };

    fn fmt<W: fmt::Write>(&self, f: &mut fmt::Formatter<W>) -> fmt::Result {
        f.write_str("passed")
    }
}

impl Outcome<Passed> {
    // By name and not by `From`: it says that the answer is forgotten.
    /// What a call came to whose answer is not told.
    pub fn of<T: Drop>(made: Result<T, Refusal>) -> Outcome<Passed>
        ensures { told result.0 ≡ told made }
    {
        Outcome(made.map(|_| Passed))
    }
}

impl From<Result<(u32, u32, u32), Refusal>> for Outcome<StopFigures> {
    ghost from_gives = { λ made x. stop_told x.0 ≡ stop_reply made };

    // What a stop question came to, its figures by their names.
    fn from(made: Result<(u32, u32, u32), Refusal>) -> Outcome<StopFigures> {
        Outcome(made.map(|figures| StopFigures::from(figures)))
    }
}
