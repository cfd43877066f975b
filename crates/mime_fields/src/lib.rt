//! Lines of a text, and what the header fields of an entity say.
#![tactic(auto)]

mod fields;
mod held;
mod lines;
mod value;

pub use fields::read_fields;
pub use lines::next_line;
