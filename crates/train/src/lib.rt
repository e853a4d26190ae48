// A train: its vehicles with their brakes, and the sums over them.
#![tactic(auto)]

pub mod consist;
pub mod totals;
pub mod vehicle;

pub use consist::Consist;
pub use totals::Totals;
pub use vehicle::{Vehicle, VehicleKind};
