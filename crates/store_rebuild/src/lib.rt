//! Making a store again from its storage files: what is read of the disk, and the logs that are written.
#![tactic(auto)]

pub use make::rebuild;
pub use report::{RebuildRefused, RebuildReport, RebuiltStore};

mod boxes;
mod draft;
mod log;
mod logs;
mod make;
mod map;
mod names;
mod new_logs;
mod plan;
mod report;
mod root;
mod sync;
