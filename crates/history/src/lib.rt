// Whole histories of a sheet: a list of calls, performed in its order with a reply beside each, carries the whole promise.
#![tactic(auto)]

pub mod asked;
pub mod call;
pub mod either;
pub mod histories;
pub mod inquiry;
pub mod lettered;
pub mod reply;

pub use asked::Asked;
pub use call::{Call, Exchange};
pub use either::Either;
pub use histories::{perform, perform_anew};
pub use inquiry::Inquiry;
pub use lettered::Lettered;
pub use reply::Reply;
