//! Logs of a store that have many more entries than they need are written anew, with an entry for what is there.
#![tactic(auto)]

pub use box_log::snapshot_box;
pub use due::{box_due, map_due};
pub use due_logs::snapshot_due;
pub use laws::rewritten_stores_open_again;
pub use map_log::snapshot_map;

mod box_entries;
mod box_log;
mod due;
mod due_logs;
mod laws;
mod map_entries;
mod map_log;
