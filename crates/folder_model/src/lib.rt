//! The system's files as a process sees them by its calls, and what a crash may leave of them.
#![tactic(auto)]

pub use folder::{CallError, Folder, Kind, MOST_OPEN};
pub use laws::writes_join;

mod folder;
mod laws;
