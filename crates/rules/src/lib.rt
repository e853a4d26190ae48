// The rules of train reckoning: what the laws, the book and the questions mean stands in specs/, and the figures and
// refusals that every crate above shares stand here.
#![tactic(auto)]

pub mod fault;
pub mod figures;
pub mod refusal;
pub mod theorems;

pub use fault::{Fault, Layer};
pub use figures::{
    MassQuestion, PointFigures, Question, SectionFigures, SpeedQuestion, StopFigures, StopQuestion,
    VehicleFigures,
};
pub use refusal::Refusal;
