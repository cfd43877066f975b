//! What is written of a message that is saved: its region, the references to its detached attachments, its GUID.
#![tactic(auto)]

pub use laid::Laid;
pub use laws::{
    attachments_are_few, laid_regions_are_short, prepared_form_is_one,
    written_attachments_have_hashes, written_messages_are_detached, written_messages_are_stored,
};
pub use layout::lay_out;
pub use place::guid_at;

mod digits;
mod laid;
mod laws;
mod layout;
mod place;
mod texts;
