//! Logs and the entries of the store's logs as octets, and their laws.
#![tactic(auto)]

pub use entries::one_spelling;
pub use log_file::{log_examples, log_or_damage, one_damage, one_log};
pub use log_head::{LogHead, LogKind};

mod entries;
mod log_file;
mod log_head;
