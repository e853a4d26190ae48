// A line: its sections with their grades, and the lowest grade of a stretch.
#![tactic(auto)]

pub mod curve;
pub mod line;
pub mod section;

pub use curve::Curve;
pub use line::Line;
pub use section::Section;
