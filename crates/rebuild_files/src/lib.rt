//! What a rebuild of a store reads of its disk: whether its logs are lost, and what its storage files hold.
#![tactic(auto)]

pub use error::RebuildError;
pub use find::find_all;
pub use found::{FoundAt, FoundPlace};
pub use generations::{free_box_generation, free_map_generation};
pub use instances::highest_instance;
pub use lost::check_lost;
pub use storage::storage_numbers;

mod device;
mod error;
mod find;
mod found;
mod generations;
mod instances;
mod lost;
mod storage;
