//! A task of any kind: what lanes run beside each other over one store.
#![tactic(auto)]

pub use laws::{
    found_files_are_free, safe_files_answer, tasks_are_stable, tasks_begin, tasks_claim_few,
    tasks_have_room, tasks_have_taken, tasks_leave_work, tasks_stand,
};
pub use task::Task;
pub use uses::{deliveries_hold, fetches_hold, tasks_claim_taken, tasks_tell_holds};

mod laws;
mod task;
mod uses;
