//! What is found in storage files, and why something in them is skipped.
#![tactic(auto)]

pub use laws::findings_are_one;
pub use reason::Reason;

mod laws;
mod reason;
