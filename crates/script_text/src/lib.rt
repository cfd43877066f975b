//! Scripts: the requests of several lanes as a text, read, written, and made from a number.
#![tactic(auto)]

pub use error::{ScriptError, TakeError};
pub use exercise::exercise_script;
pub use flaw::{Need, ScriptFlaw, flaw_at};
pub use laws::{a_text_is_one_script, made_scripts_fit, written_scripts_are_read};
pub use read::{MOST_REQUESTS, read_script};
pub use take::{Extent, take_request};
pub use write::push_script;

mod arguments;
mod cut;
mod error;
mod exercise;
mod flaw;
mod keywords;
mod laws;
mod read;
mod request;
mod take;
mod verb;
mod write;
