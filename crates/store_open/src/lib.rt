//! Making a store's files and opening them.
#![tactic(auto)]

pub use error::{OpenError, OpenRefused};
pub use init::init_store;
pub use open::open_store;

mod entries;
mod error;
mod first_logs;
mod free;
mod init;
mod old_logs;
mod open;
