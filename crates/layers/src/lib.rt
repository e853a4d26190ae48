// Layers over laws: a share of a law, two laws blended, and the lesser of two falling laws, each a law again.
#![tactic(auto)]

pub mod blend;
pub mod lesser;
pub mod scale;

pub use blend::Blend;
pub use lesser::Lesser;
pub use scale::Scale;
