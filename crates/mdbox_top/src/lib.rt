//! What the program does: the words, the input, the store, what is printed, and the status.
#![tactic(auto)]

pub use laws::{
    counted_messages_are_listed, exercises_are_done_in_order, exercises_count_their_requests,
};
pub use request_text::Status;
pub use run::{mdbox_alone, mdbox_run};

mod alone;
mod back;
mod batch;
mod boxes;
mod deliver;
mod exercise;
mod init;
mod input_commands;
mod laws;
mod numbers;
mod opening;
mod rebuild;
mod run;
mod sessions;
mod show;
mod together;
