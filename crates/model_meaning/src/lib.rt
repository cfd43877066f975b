//! What the entries of a mailbox log and of the map log mean, which entries fit, and laws of both.
#![tactic(auto)]

pub use examples::{example_fits, example_meanings, example_texts, example_words_fit};
pub use meanings::{meanings_are_sound, more_entries, one_entry_more, sealed_files};

mod examples;
mod meanings;
