//! What a disk represents: an image of a store, safe images, settled disks and opening, with their laws.
#![tactic(auto)]

pub use carrying::carried_files;
pub use examples::{
    example_instance_store_is_safe, example_instance_store_is_settled, example_store_is_safe,
    example_store_is_settled,
};
pub use opening::{new_store_is_safe, opening_has_an_answer, opening_is_one, safe_files_open};
pub use settled::{alike_files, images_of_settled_disk, rest_is_settled};
pub use stands::{
    counts_of_safe_image, kept_messages_rejoin, lists_are_well_formed, one_map, one_meaning,
};

mod carrying;
mod examples;
mod opening;
mod settled;
mod stands;
