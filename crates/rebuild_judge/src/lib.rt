//! Which of the messages that are found in storage files a rebuild takes, and why it skips the others.
#![tactic(auto)]

pub use judge::judge_all;
pub use taken::{Judged, SkippedAt, TakenRow};

mod compare;
mod device;
mod hashes;
mod instances;
mod join;
mod judge;
mod lines;
mod mailboxes;
mod taken;
