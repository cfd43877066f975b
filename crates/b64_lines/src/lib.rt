//! Base64 text in lines (RFC 4648, section 4; RFC 2045, section 6.8): recognised, written and measured.
#![tactic(auto)]

pub use read::recognise;
pub use size::{text_length, text_size};
pub use write::{push_lines, write_lines};
pub use writer::LineWriter;

mod pairs;
mod read;
mod size;
mod write;
mod writer;
