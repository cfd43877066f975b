//! Which messages of the storage files a rebuild takes.
#![tactic(auto)]

pub use laws::{one_rebuild_of_files, references_are_few, taken_messages_are_stored};

mod laws;
