//! The journal of a run: which steps its events made, when it is legal, which lists a crash may leave, and what the events
//! of each request are.
#![tactic(auto)]

pub use counts::counts_add_up;
pub use events::{
    expunges_make_two_events, read_faults_have_events, runs_come_on, runs_go_on,
    tasks_make_journals,
};
pub use examples::example_journals;
pub use journals::{
    a_journal_is_one, a_legal_journal_goes_on, a_request_alone, journals_change_references,
    wrong_journals,
};
pub use reached::{failed_appends_are_reached, reached_lists_stay};

mod counts;
mod events;
mod examples;
mod journals;
mod reached;
