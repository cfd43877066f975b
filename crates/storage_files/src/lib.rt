//! The storage files of a store: who has taken which, where each ends, and what is written to them.
#![tactic(auto)]

pub use error::DiskFault;
pub use file::{FileState, MailFile, Take};
pub use files::MailFiles;
pub use laws::files_change_apart;

mod adding;
mod device;
mod error;
mod file;
mod files;
mod laws;
mod list;
mod placing;
