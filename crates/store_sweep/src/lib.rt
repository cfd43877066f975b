//! What an opening of the store does to the disk after its checks have passed.
#![tactic(auto)]

pub use laws::swept_files_are_known;
pub use swept::sweep;

mod cuts;
mod laws;
mod repairs;
mod strays;
mod swept;
mod wanted;
