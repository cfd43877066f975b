//! What the entries of mailbox logs are as steps of the list machine.
#![tactic(auto)]

pub use steps::entries_are_steps;

mod steps;
