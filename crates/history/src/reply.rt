ghost use Rattle.history.specs.Replies.{reply_told};
ghost use Rattle.history.specs.Printed.{reply_text};
ghost use Rattle.rules.specs.Refusals.{edit_reply, stop_reply, speed_reply, mass_reply};
ghost use Rattle.std.specs.Prelude.{◌≡◌, Some};

use rules::{Refusal, StopFigures};
use std::fmt;
use units::{Load, Speed};

/// What comes back from a call.
#[derive(Clone, Copy, PartialEq, Eq, Debug)]
pub enum Reply {
    /// An edit passed.
    Passed,
    /// A stop is answered: its distance in millimetres, its least force in milli, and the number of its steps.
    Stops((u32, u32, u32)),
    /// A speed is answered.
    Runs(Speed),
    /// A mass is answered.
    Hauls(Load),
    /// The call is refused, and nothing changed.
    Refused(Refusal),
}

impl From<Result<(), Refusal>> for Reply {
    ghost from_gives = { λ made r. reply_told r ≡ edit_reply made };

    // To an edit.
    fn from(made: Result<(), Refusal>) -> Reply {
        match made {
            Ok(()) => Reply::Passed,
            Err(refusal) => Reply::Refused(refusal),
        }
    }
}

impl From<Result<(u32, u32, u32), Refusal>> for Reply {
    ghost from_gives = { λ made r. reply_told r ≡ stop_reply made };

    // To a stop question.
    fn from(made: Result<(u32, u32, u32), Refusal>) -> Reply {
        match made {
            Ok(figures) => Reply::Stops(figures),
            Err(refusal) => Reply::Refused(refusal),
        }
    }
}

impl From<Result<Speed, Refusal>> for Reply {
    ghost from_gives = { λ made r. reply_told r ≡ speed_reply made };

    // To a speed question.
    fn from(made: Result<Speed, Refusal>) -> Reply {
        match made {
            Ok(speed) => Reply::Runs(speed),
            Err(refusal) => Reply::Refused(refusal),
        }
    }
}

impl From<Result<Load, Refusal>> for Reply {
    ghost from_gives = { λ made r. reply_told r ≡ mass_reply made };

    // To a mass question.
    fn from(made: Result<Load, Refusal>) -> Reply {
        match made {
            Ok(load) => Reply::Hauls(load),
            Err(refusal) => Reply::Refused(refusal),
        }
    }
}

impl fmt::Display for Reply {
    ghost output = { λ r. Some (reply_text r) };

    fn fmt<W: fmt::Write>(&self, f: &mut fmt::Formatter<W>) -> fmt::Result {
        match self {
            Reply::Passed => f.write_str("passed"),
            Reply::Stops(figures) => write!(f, "{}", StopFigures::from(*figures)),
            Reply::Runs(speed) => write!(f, "up to speed {speed}"),
            Reply::Hauls(load) => write!(f, "up to mass {load}"),
            Reply::Refused(refusal) => write!(f, "{refusal}"),
        }
    }
}
