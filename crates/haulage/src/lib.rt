// The mass question: how heavy the wagons may be that the locomotives of a sheet haul over its line, by any stock.
#![tactic(auto)]

mod hauler;
mod hauling;
pub mod questions;

pub use questions::mass;
