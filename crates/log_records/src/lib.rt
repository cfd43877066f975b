//! The entries of a store's logs as octets, both ways.
#![tactic(auto)]

pub use mailbox::{box_entry_size, push_box_entry, put_box_entry, read_box_entry};
pub use map_read::read_map_entry;
pub use map_write::{map_entry_size, push_map_entry, put_map_entry};
pub use root::{push_root_entry, read_root_entry};

mod added;
mod fields;
mod items;
mod lists;
mod mailbox;
mod map_read;
mod map_write;
mod root;
mod stored;
mod worded;
