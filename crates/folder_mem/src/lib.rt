//! The system's files in memory: calls that fail, do less or are interrupted as they are listed to.
#![tactic(auto)]

pub use bare::BareFolder;
pub use crash::Crash;
pub use folder::{MemFile, MemFolder};
pub use plan::Turn;

mod bare;
mod calls;
mod crash;
mod folder;
mod list;
mod note;
mod path;
mod plan;
mod seen;
mod text;
