// Scripts, and the journal of a run.
use crate::requests::Request;
use crate::seq::Seq;

/// Requests that run on lanes side by side.
#[derive(Drop)]
pub struct Script {
    /// How many lanes there are. They are numbered from 1.
    pub lanes: u32,
    /// Each request with its lane's number. A lane does its requests in this order.
    pub requests: Seq<(u32, Request)>,
}

/// Which half of its request a step does.
#[derive(Clone, Copy, Debug, PartialEq, Eq)]
pub enum Half {
    /// The whole request.
    Whole,
    /// The copy of a move.
    CopyHalf,
    /// The expunge of a move.
    ExpungeHalf,
}

/// A step of a run.
#[derive(Clone, Copy, Debug, PartialEq, Eq)]
pub struct JournalEntry {
    /// The lane's number, from 1.
    pub lane: u32,
    /// The request's place in the script, counted from 0.
    pub request: u32,
    pub half: Half,
    /// How many device calls the run had made by then.
    pub calls: u64,
}
