//! The records of the map: a table of them in order of map uid, orders of them by other numbers, and the searches in both.
#![tactic(auto)]

pub use order::{Order, OrderKey};
pub use rows::{MapRow, Record};
pub use table::Table;

mod edits;
mod keys;
mod listed;
mod names;
mod order;
mod rows;
mod table;
