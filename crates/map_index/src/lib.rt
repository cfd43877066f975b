//! What a map log means so far: its records, mailboxes, sealed files and highest numbers.
#![tactic(auto)]

pub use changes::copied;
pub use index::MapIndex;
pub use map_rows::MapRow;
pub use room::{MapRoom, NO_ROOM, room_for};
pub use rows::BoxAt;

mod changes;
mod fitting;
mod index;
mod listed;
mod named;
mod numbers;
mod room;
mod rows;
