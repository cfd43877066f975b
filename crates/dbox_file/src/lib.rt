//! The storage file of mdbox (`m.N`): its header line, and where its messages stand; both as they are written.
#![tactic(auto)]

pub use alone::{header_size, lines_in};
pub use laws::{written_files_are_files, written_messages_are_found};
pub use message::message_at;
pub use messages::scan;
pub use model_storage::{MessageAt, PlaceError, ScanError};
pub use writing::{message_header, metadata_block, push_file_header, push_message};

mod alone;
mod header_line;
mod laws;
mod lines;
mod message;
mod messages;
mod reading;
mod writing;
