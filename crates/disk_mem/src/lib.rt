//! A disk in memory, which keeps a record of its calls and makes the disks that a crash would leave.
#![tactic(auto)]

pub use choice::Choice;
pub use disk::MemDisk;
pub use mute::MuteDisk;

mod calls;
mod choice;
mod disk;
mod file;
mod image;
mod marks;
mod mute;
mod note;
mod plan;
mod text;
