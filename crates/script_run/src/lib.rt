//! The run of a script: the store is opened, lanes serve the requests to their end, and the replies are given.
#![tactic(auto)]

pub use laws::{
    makes_make_one_step, moves_make_two_steps, one_request, opened_logs_show_lists,
    requests_of_one_event, requests_that_read, safe_files_are_shown,
};
pub use run::{
    ScriptRun, ServedScript, close_script, open_script, run_request, run_script, serve_script,
};

mod laws;
mod run;
