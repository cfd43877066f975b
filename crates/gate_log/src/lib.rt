//! Logs that only grow, on a disk that may crash at any moment.
#![tactic(auto)]

pub use error::{DiskFault, LogError};
pub use found::{FoundLog, inspect_log, inspect_text};
pub use log::{GateLog, create_log, open_log};
pub use peek::{FRONT_SIZE, id_in, peek_head};
pub use read::{LogRead, read_log};
pub use room::LogRoom;
pub use text::{LogCursor, LogText, check_log};

mod device;
mod error;
mod found;
mod gate;
mod head;
mod layout;
mod log;
mod make;
mod peek;
mod read;
mod record;
mod repair;
mod room;
mod text;
