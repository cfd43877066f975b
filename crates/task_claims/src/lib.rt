//! What tasks claim of an open store, and what an event of one leaves to the others.
#![tactic(auto)]

pub use laws::{
    claimed_things_stay, claims_add_up, claims_stay, counts_leave_records, kept_records_are_spared,
    log_events_leave_others,
};

mod laws;
