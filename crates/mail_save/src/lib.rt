//! A message that is saved: the task of a delivery.
#![tactic(auto)]

pub use add::Added;
pub use first::SavedParts;
pub use laws::{
    deliveries_are_stable, deliveries_have_taken, deliveries_leave_work,
    ready_deliveries_have_left, ready_saves_have_parts, save_stages_are_kept,
};
pub use place::SavedAt;
pub use record::LowerRoom;
pub use task::{SaveStage, SaveTask};

mod add;
mod attach;
mod first;
mod laws;
mod place;
mod record;
mod task;
