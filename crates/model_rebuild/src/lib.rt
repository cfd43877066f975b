//! What a rebuild writes, and what a crash leaves of it.
#![tactic(auto)]

pub use example::example_is_rebuilt;
pub use laws::{a_rebuild_can_crash, a_rebuild_is_one, rebuilt_files_are_safe};

mod example;
mod laws;
