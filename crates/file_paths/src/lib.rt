//! The paths of a store's files in its folder, both ways.
#![tactic(auto)]

pub use laws::files_have_own_paths;
pub use read::{name_of_path, octet_of};
pub use write::path_of;

mod laws;
mod read;
mod write;
