// The laws of a train: friction, pull and drag, its kind of brake, and the five laws of a stock together.
#![tactic(auto)]

pub mod adhesion;
pub mod blocks;
pub mod df4;
pub mod drags;
pub mod kind;
pub mod law;
pub mod pull;
pub mod reading;
pub mod stock;

pub use adhesion::AdhesionPull;
pub use blocks::{CastIron, Composite};
pub use df4::{Diesel, diesel};
pub use drags::{QuadraticDrag, WagonDrag};
pub use kind::{
    BrakeKind, ElectroPneumatic, Freight, FreightByHand, KindLetter, Passenger, PassengerByHand,
    constants_of,
};
pub use law::{DragLaw, FallingLaw, Formula, Law, Place, Running};
pub use pull::NoPull;
pub use reading::Reading;
pub use stock::{Locomotive, LocomotiveLaws, Stock, StockLaws};
