//! What is printed of a rebuild.
#![tactic(auto)]

pub use print::print_report;

mod print;
