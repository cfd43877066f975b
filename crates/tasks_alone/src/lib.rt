//! What a delivery and a fetch come to that have the store to themselves: by the clauses of their steps, event by event, what they reply,
//! and what stands in storage files and instances then.
#![tactic(auto)]

pub use laws::{
    fetches_are_refused_by_the_logs, opened_instances_are_free, regions_are_as_long_as_laid_out,
};

mod laws;
