//! An open store: its disk, its logs, and what they mean.
#![tactic(auto)]

pub use box_draft::BoxDraft;
pub use error::{PlaceStop, StepError, Stopped};
pub use laws::{
    candidates_are_found, counts_cover_listings, instances_are_kept, instances_read_as_before,
    known_rows_agree, listings_are_shown,
};
pub use map_draft::MapDraft;
pub use room::StoreRoom;
pub use store::{OpenBox, OpenLogs, Store};

mod append;
mod box_draft;
mod due;
mod error;
mod laws;
mod map_draft;
mod room;
mod store;
