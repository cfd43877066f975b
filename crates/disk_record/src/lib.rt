//! A record of the calls of a disk that only clauses read.
#![tactic(auto)]

pub use change::Change;
pub use record::Record;

mod change;
mod record;
