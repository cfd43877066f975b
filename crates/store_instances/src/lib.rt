//! The instances of attachments that the map of a store names, as an opening makes them known.
#![tactic(auto)]

pub use find::find_instances;
pub use laws::named_instances_are_sound;

mod find;
mod laws;
mod named;
