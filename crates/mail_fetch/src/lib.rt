//! Fetching a message, done event by event.
#![tactic(auto)]

pub use laws::{
    fetch_stages_are_kept, fetches_are_stable, fetches_claim_few, fetches_stay_beside,
    safe_files_are_fetched, stored_messages_are_fetched,
};
pub use parts::{Part, Source, StoredAt};
pub use region::Region;
pub use task::{FetchStage, FetchTask};

mod claim;
mod first;
mod held;
mod laws;
mod message;
mod parts;
mod region;
mod task;
