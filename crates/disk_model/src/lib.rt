//! A disk with many files, under a program that may crash at any moment, and what a crash may leave.
#![tactic(auto)]

pub use disk::Disk;
pub use error::DiskError;
pub use laws::{images_of_disk_at_rest, names_are_ordered};
pub use name::{FileName, is_log, is_named, known_range, order, same_file};

mod disk;
mod error;
mod laws;
mod name;
