//! A script served by lanes over one store: each lane's task makes its events in turn.
#![tactic(auto)]

pub use laws::{
    all_replied, requests_take_turns, serving_done, serving_more, serving_start,
    taken_files_are_in_use, turns_pass,
};

mod laws;
