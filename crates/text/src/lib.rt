// Reading a text of bytes: its lines, their fields, and whole sections of lines of one sort.
#![tactic(auto)]

pub mod entry;
pub mod fields;
pub mod malformed;
pub mod numbers;
pub mod section;
pub mod text;

pub use entry::{Entry, Store};
pub use fields::{leading_number, leading_signed, pair, switch, triple};
pub use malformed::Malformed;
pub use numbers::{number, signed_number};
pub use text::{MOST_BYTES, Text};
