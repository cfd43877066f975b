//! The attachments of a message that is being saved: of each the instance is found among the known ones, or placed.
#![tactic(auto)]

pub use attaching::Attaching;
pub use laws::{
    attaching_ends, attaching_goes_on, found_instances_are_kept, found_instances_are_named,
    own_holds_are_few,
};
pub use letting_go::let_go_all;

mod attaching;
mod laws;
mod letting_go;
