//! The program over the real outside: it makes the real input, output, errors, clock and disk, runs the words that it is given, and
//! ends with the status.
#![tactic(auto)]

pub use exits::{exit_of, run};
pub use folder::run_in;
pub use laws::empty_folder;
pub use outside::start;

mod asked;
mod dovecot;
mod exits;
mod folder;
mod laws;
mod outside;
mod reasons;
mod streams;
mod version;
mod words;
