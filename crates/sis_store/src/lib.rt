//! The instances of a store: which are known and who holds them, and the calls that find, compare, place, read and remove
//! them.
#![tactic(auto)]

pub use error::{DiskFault, PlaceFault};
pub use instance::KnownInstance;
pub use instances::Instances;
pub use laws::{
    candidates_are_compared, candidates_come_first, compared_ones_stay, next_ones_are_known,
};

mod device;
mod error;
mod hashes;
mod instance;
mod instances;
mod known;
mod laws;
mod placing;
mod reading;
