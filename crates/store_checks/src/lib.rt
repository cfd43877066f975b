//! The checks of an opening: what a store's logs say, and whether its files have what they need. They read the disk, and
//! change nothing.
#![tactic(auto)]

pub use check::{Checked, check_store};
pub use error::CheckError;
pub use mailbox::CheckedBox;
pub use no_entry::has_no_entry;

mod check;
mod counts;
mod dangling;
mod error;
mod instances;
mod lengths;
mod log;
mod mailbox;
mod map_log;
mod no_entry;
mod regions;
mod replay;
mod root;
