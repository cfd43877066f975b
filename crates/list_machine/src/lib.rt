//! The list machine: what the events of a run are, which answers a store may give to a request at one of them, and the
//! laws of both.
#![tactic(auto)]

pub use machine::{
    refusals_change_nothing, steps_are_one, steps_change_references, steps_keep_order,
};

mod machine;
