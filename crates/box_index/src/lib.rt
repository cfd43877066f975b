//! What a mailbox log means so far: its rows and its next UID.
#![tactic(auto)]

pub use index::{BoxIndex, BoxRow};
pub use rows::BoxRows;

mod index;
mod piece;
mod pieces;
mod rows;
