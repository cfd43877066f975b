//! A disk over the system's files, by the calls of a folder.
#![tactic(auto)]

pub use disk::FolderDisk;
pub use laws::disks_begin;

mod calls;
mod changed;
mod disk;
mod files;
mod folder_name;
mod folders;
mod laws;
mod listing;
mod lock;
mod names;
mod paths;
