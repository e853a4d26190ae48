// What the programs tell as values, each with the text that is printed of it, and the train and the laws that they ask with.
#![tactic(auto)]

pub mod df4;
pub mod drags;
pub mod outcome;
pub mod readings;
pub mod sample;
pub mod stops;

pub use df4::stop_of_df4;
pub use drags::{TriedDrag, drags_at_limits};
pub use outcome::{Outcome, Passed};
pub use readings::ReadingAt;
pub use sample::{example_pull, example_sheet, example_table, stop_of_example};
pub use stops::StopWithAllowance;
