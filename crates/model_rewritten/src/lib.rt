//! Logs of a store that are written anew: what they mean, that the store may go over to them, and what a crash within leaves.
#![tactic(auto)]

pub use carried::rewritten_stores_are_safe;
pub use examples::example_logs_rewritten;
pub use rewritten::{highest_numbers_are_named, rewritten_logs_mean_the_same};
pub use root::root_entries_can_be_appended;
pub use switched::{generations_can_be_appended, generations_keep_stores_open};
pub use unneeded::{other_generations_are_unneeded, unneeded_files_are_free};

mod carried;
mod examples;
mod rewritten;
mod root;
mod switched;
mod unneeded;
