ghost use Rattle.std.specs.Prelude.{◌≡◌, Some};
ghost use Rattle.rules.specs.Faults.{layer_of, layer_text};
ghost use Rattle.rules.specs.Reasons.{fault_text};

use crate::refusal::Refusal;
use std::error::Error;
use std::fmt;

/// What of a run file is at fault: its text, a law that it states, or what it puts on the sheet.
#[derive(Clone, Copy, PartialEq, Eq, Debug)]
pub enum Layer {
    Text,
    Law,
    Sheet,
}

impl fmt::Display for Layer {
    ghost output = { λ x. Some (layer_text x) };

    fn fmt<W: fmt::Write>(&self, f: &mut fmt::Formatter<W>) -> fmt::Result {
        f.write_str(match self {
            Layer::Text => "TEXT",
            Layer::Law => "LAW",
            Layer::Sheet => "SHEET",
        })
    }
}

/// Why a run file is refused: the first line that is at fault, counted from 1, and the refusal that tells the fault.
#[derive(Clone, Copy, PartialEq, Eq, Debug)]
pub struct Fault {
    pub line: u32,
    pub refusal: Refusal,
}

impl Fault {
    /// What is at fault.
    pub fn layer(&self) -> Layer
        ensures { result ≡ layer_of self.now.refusal }
    {
        match self.refusal {
            Refusal::MalformedLine | Refusal::WrongCount => Layer::Text,
            Refusal::UnlawfulLaw => Layer::Law,
            _ => Layer::Sheet,
        }
    }
}

impl fmt::Display for Fault {
    ghost output = { λ x. Some (fault_text x) };

    #[tactic(auto, unfolding(crate::specs::Reasons::fault_text))]
    fn fmt<W: fmt::Write>(&self, f: &mut fmt::Formatter<W>) -> fmt::Result {
        write!(f, "line {} of the run file: {}", self.line, self.refusal)
    }
}

impl Error for Fault {}
