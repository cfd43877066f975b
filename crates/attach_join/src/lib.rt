//! Puts attachment instances back into a stored body.
#![tactic(auto)]

pub use check::check_refs;
pub use join::rejoin;
pub use keeping::{fit_into, keep, spread_out};
pub use restore::rejoin_detached;
pub use spreading::{filled_is_whole, outside_stays, spread};
pub use writing::write_texts;

mod check;
mod join;
mod keeping;
mod restore;
mod spreading;
mod writing;
