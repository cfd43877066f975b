//! The words of the program's commands, what is printed of replies, how a run ends, and what is told of that.
#![tactic(auto)]

pub use batch_print::{print_answer, print_batch, push_reply};
pub use boxes::{BoxRow, print_boxes};
pub use command::{Command, HELP, VERSION};
pub use error_report::report;
pub use keywords::{are_few, first_other};
pub use laws::replies_are_told_in_order;
pub use outcome::{
    FileRefusal, InputRefusal, Outcome, StoreRefusal, outcome_of_replies, outcome_of_reply,
};
pub use places::{Places, Steps};
pub use reply_line::{Line, numbers_line};
pub use reply_print::{print_fetch_alone, print_reply, push_answer, push_numbers, put_line};
pub use status::Status;
pub use summary::{Summary, print_summary};
pub use words::{WordsError, read_words};

mod batch_print;
mod boxes;
mod command;
mod error_report;
mod keywords;
mod laws;
mod outcome;
mod places;
mod reply_line;
mod reply_print;
mod status;
mod summary;
mod words;
