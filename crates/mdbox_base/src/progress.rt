// How far a task has come.
use crate::replies::Reply;
use crate::script::Half;

/// Whether a task goes on.
#[derive(Drop)]
pub enum Progress {
    /// There is more to do.
    More,
    /// The request ended with this reply.
    Done(Reply),
}

/// What the last event of a task did.
#[derive(Clone, Copy, Debug, PartialEq, Eq)]
pub enum Did {
    /// No step of the list machine.
    Quiet,
    /// One step was made.
    Step(Half),
    /// A change of the disk failed that would have made no step.
    Failed,
    /// A change of the disk failed that would have made this step. The opening after a crash may find it made.
    Broken(Half),
}
