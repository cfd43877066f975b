//! Storage files and the metadata of messages: the grammars, and their laws.
#![tactic(auto)]

pub use metadata::{
    first_bad_line_is_one, metadata_is_one, references_are_one, written_metadata_is_a_spelling,
};
pub use metadata_value::Metadata;
pub use places::{MessageAt, PlaceError, ScanError};
pub use storage_file::{
    a_scan_has_one_answer, an_example_is_a_file, no_message_begins_another, octets_are_one_file,
    written_header_is_a_header_line, written_message_is_a_spelling,
};

mod metadata;
mod metadata_value;
mod places;
mod storage_file;
