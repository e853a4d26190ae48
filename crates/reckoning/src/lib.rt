// The questions that are asked of a sheet, over any kind of brake and any stock, and by how much an answer may exceed the exact
// sum.
#![tactic(auto)]

pub mod allowances;
mod approach;
mod brake_ratio;
mod braking;
mod edges;
pub mod questions;
mod run;
mod search;
mod step;

pub use allowances::allowance;
pub use questions::{speed, stop};
