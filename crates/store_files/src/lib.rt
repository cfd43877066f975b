//! The storage files of a store as an opening finds them.
#![tactic(auto)]

pub use error::FilesError;
pub use find::find_files;
pub use laws::{found_files_are_one, highest_file_is_named};

mod barred;
mod error;
mod find;
mod laws;
mod numbers;
mod states;
