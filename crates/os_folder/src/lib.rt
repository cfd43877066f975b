//! The real outside: the system's files of the current folder, standard input, output and error, and the clock. Trusted: no clause
//! tells what the system gives, takes or keeps.
#![tactic(auto)]

pub use clock::StdClock;
pub use failure::Failure;
pub use folder::{OsFile, OsFolder};
pub use streams::{StdSink, StdSource};

mod answers;
mod clock;
mod failure;
mod folder;
mod lock;
mod streams;
