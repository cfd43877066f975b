//! Appends to the logs of a store. For each kind of entry but the new generation: the lists that it gives, that files with
//! this entry more are safe for them and open, that a crash within the append leaves files that are safe for the lists before
//! it or behind it, and what it makes of the counts of records.
#![tactic(auto)]

pub use appended::{appends_are_safe, appends_settle, crash_within_append};
pub use counts::{counts_are_enough, entries_are_accounted, entries_change_references};
pub use kinds::{
    box_entries_can_be_appended, map_entries_can_be_appended, what_entries_add_is_synced,
};
pub use logs::{logs_compare, settled_disks_hold_logs};
pub use opened::{appends_keep_logs_good, appends_open};
pub use purged::{purges_can_be_appended, purges_keep_stores_open};

mod appended;
mod counts;
mod kinds;
mod logs;
mod opened;
mod purged;
