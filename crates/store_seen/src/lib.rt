//! How an open store is seen by the events of tasks.
#![tactic(auto)]

pub use laws::stores_are_seen;

mod laws;
