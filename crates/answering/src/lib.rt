// Run files answered: from the bytes of a run file to the lines of its answers.
#![tactic(auto)]

pub mod equipment;
mod output;
pub mod program;
pub mod reckoner;
pub mod theorems;
pub mod unanswered;

pub use equipment::Equipment;
pub use program::{answer_input, run};
pub use reckoner::Reckoner;
pub use unanswered::Unanswered;
