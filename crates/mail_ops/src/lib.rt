//! Requests on a store's mailboxes, done event by event.
#![tactic(auto)]

pub use copy::{CopyStage, CopyTask};
pub use counting::CountsTask;
pub use deleting::{DeleteStage, DeleteTask};
pub use event::NotDone;
pub use expunging::{ExpungeStage, ExpungeTask};
pub use laws::{
    copy_stages_are_kept, delete_stages_are_kept, expunge_stages_are_kept, flags_are_shown,
    listings_are_answered, make_stages_are_kept, move_stages_are_kept, ready_tasks_are_stable,
    task_stages_are_kept, words_are_shown,
};
pub use lowering::Lowering;
pub use making::{MakeStage, MakeTask};
pub use moving::{MoveStage, MoveTask};
pub use renaming::RenameTask;
pub use task::{OpsTask, TaskStage};

mod changing;
mod copy;
mod copying;
mod counting;
mod deleting;
mod event;
mod expunging;
mod flagging;
mod laws;
mod leaving;
mod listing;
mod lowering;
mod making;
mod message;
mod moving;
mod renaming;
mod task;
mod wording;
