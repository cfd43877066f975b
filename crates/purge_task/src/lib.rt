//! The events of a purge: what no mailbox lists leaves the storage files, beneath those who read them.
#![tactic(auto)]

pub use contents::Contents;
pub use copy_event::copy_next;
pub use copying::{copy_message, next_wanted};
pub use finding::{Found, FoundFile, TARGET_HEADER};
pub use laws::{purge_stages_are_kept, purges_are_stable, purges_leave_work, purges_stand};
pub use switch_event::{SwitchedFile, switch_file};
pub use switching::{Switched, switch};
pub use taking::{make_target, reserve, take_files};
pub use task::{PurgeStage, PurgeTask, did_refused, remove_source};
pub use work::{PIECE, Present, Source, Work, entry_size};

mod contents;
mod copy_event;
mod copying;
mod finding;
mod first_event;
mod laws;
mod switch_event;
mod switching;
mod taking;
mod task;
mod work;
