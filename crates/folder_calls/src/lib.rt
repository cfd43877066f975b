//! Whole reads and writes, over calls of the system that may do less than asked, or be interrupted.
#![tactic(auto)]

pub use read::read_all;
pub use write::write_all;

mod read;
mod write;
