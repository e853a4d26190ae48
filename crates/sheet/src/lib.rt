// The sheet: a train, a line and a braking distance, and the calls that change them.
#![tactic(auto)]

pub mod sheet;

pub use sheet::{Sheet, check_distance};
