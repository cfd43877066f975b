//! Mailbox lists in plain vectors, walked from their front: the list machine as a program, for reading and for tests.
#![tactic(auto)]

pub use lists::{PlainLists, PlainMailbox, PlainMessage};

mod lists;
mod messages;
mod serve;
mod walks;
