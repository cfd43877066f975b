//! Takes a message apart: its large attachments as pieces, and the body that is left.
#![tactic(auto)]

pub use laws::{plain_messages_are_prepared, prepared_is_detached};
pub use message::{Detached, Prepared, plain, prepare, take_apart};

mod cut;
mod laws;
mod message;
mod size;
