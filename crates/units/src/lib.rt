// Wrapped numbers: no figure is taken for one of another unit, and what leads from one unit to another has a name.
#![tactic(auto)]

pub mod amount;
pub mod exact;
pub mod specific_force;
pub mod tenths;

pub use amount::{Amount, Friction, Kgf, KilogramsForce, Milli, MilliPerTonne, Millionths};
pub use exact::ExactValue;
pub use specific_force::{Grade, SpecificForce};
pub use tenths::{Gross, KilometresPerHour, Load, Speed, Tenths, Tonnes};
