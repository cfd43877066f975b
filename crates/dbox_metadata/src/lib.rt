//! The metadata lines of a message, and the references to attachments in them, read and written.
#![tactic(auto)]

pub use brief::{Brief, read_brief};
pub use error::MetaError;
pub use laws::{made_metadata_is_said, made_metadata_is_short};
pub use metadata_read::read_metadata;
pub use metadata_write::push_metadata;
pub use model_storage::Metadata;
pub use refs_read::read_refs;
pub use refs_write::push_refs;

mod brief;
mod error;
mod key;
mod laws;
mod metadata_read;
mod metadata_write;
mod reader;
mod reference;
mod refs_read;
mod refs_write;
mod split;
