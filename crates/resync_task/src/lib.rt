//! A resync, done event by event: it counts the messages that are damaged, and makes the counts of the map exact.
#![tactic(auto)]

pub use laws::resync_stages_are_kept;
pub use task::ResyncTask;

mod correcting;
mod counting;
mod files;
mod laws;
mod reading;
mod region;
mod task;
mod window;
