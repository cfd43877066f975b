//! A disk over the system's files.
#![tactic(auto)]

pub use laws::{
    cuts_are_followed, ends_are_followed, failed_writes_are_followed, files_stay_own,
    folders_are_followed, images_are_covered, makings_are_followed, names_are_followed,
    paths_are_spelled, removals_are_followed, syncs_are_followed, writes_are_followed,
};

mod laws;
