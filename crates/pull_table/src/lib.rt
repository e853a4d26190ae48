// The pull of a locomotive by a table of points.
#![tactic(auto)]

pub mod breaks;
pub mod table;

pub use breaks::{MOST_POINTS, first_break};
pub use table::PullTable;
