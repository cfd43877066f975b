//! The detached form of a message, and how a message is put together again.
#![tactic(auto)]

pub use detached::{detached_form_is_one, whole_of_detached_is_message};
pub use join_error::JoinError;
pub use rejoined::{whole_has_no_error, whole_is_one};

mod detached;
mod join_error;
mod rejoined;
