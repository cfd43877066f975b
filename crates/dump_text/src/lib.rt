//! What is printed of a storage file and of a log.
#![tactic(auto)]

pub use dump_print::print_messages;
pub use log_print::print_log;

mod dump_print;
mod log_print;
