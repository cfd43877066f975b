// How a run ends.
ghost use Rattle.std.specs.Prelude.{◌≡◌};
ghost use Rattle.std.specs.List.{list_any};
ghost use Rattle.request_text.specs.Outcomes.{reply_outcome, replies_outcome, is_disk_no, is_lack, is_no};

use disk_model::FileName;
use mdbox_base::{Refusal, Reply};
use script_text::ScriptFlaw;

/// Why octets are no storage file. Offsets are those of the first place where no whole message stands.
#[derive(Clone, Copy, Debug, PartialEq, Eq)]
pub enum FileRefusal {
    /// No header line begins the file.
    BadHeader,
    /// The header line is good, but its `M` is this number and not 30.
    HeaderSize(u64),
    /// What stands from here to the end may be a prefix of a message: the file was cut off.
    Truncated(u64),
    /// What stands here is no message, and no prefix of one.
    BadMessage(u64),
}

/// Why the input is refused.
#[derive(Clone, Copy, Debug, PartialEq, Eq)]
pub enum InputRefusal {
    /// It has more octets than this.
    TooLong(u64),
    /// It is no storage file.
    File(FileRefusal),
    /// It is no log: it is damaged at this place.
    Log(u64),
    /// It is no script: here no request stands, or one too many.
    Script(ScriptFlaw),
}

/// Why the files let no store be made or opened.
#[derive(Clone, Copy, Debug, PartialEq, Eq)]
pub enum StoreRefusal {
    /// There is no store.
    NoStore,
    /// There is a store already.
    StoreWhole,
    /// There are storage files or attachments, but no store.
    MailFiles,
    /// The store is damaged in this file at this place.
    Damaged(FileName, u64),
}

/// How a run ends.
#[derive(Clone, Copy, Debug, PartialEq, Eq)]
pub enum Outcome {
    /// All was done and printed.
    Done,
    /// A reply was printed that refuses the request: one that begins with `NO` and another number than 17 to 19.
    No,
    /// The words say no command.
    Usage,
    /// The store was not made or opened, for what the files are.
    StoreRefused(StoreRefusal),
    /// The input isn't in the command's grammar, or is too long.
    InputRefused(InputRefusal),
    NoMemory,
    /// The disk failed.
    DiskFault,
    /// The source of the input failed.
    ReadFault,
    /// The output failed.
    WriteFault,
    /// A session has done as many requests as one may.
    SessionFull,
}

/// The end of a run that printed this reply.
pub fn outcome_of_reply(given: &Reply) -> Outcome
    ensures { result ≡ reply_outcome given.now }
{
    match given {
        Reply::Refused(Refusal::NoMemory) => Outcome::NoMemory,
        Reply::Refused(Refusal::ReadFault | Refusal::Stopped) => Outcome::DiskFault,
        Reply::Refused(_) => Outcome::No,
        _ => Outcome::Done,
    }
}

/// The end of a run that printed these replies.
pub fn outcome_of_replies(replies: &[Option<Reply>]) -> Outcome
    ensures { result ≡ replies_outcome replies.now }
{
    if any_fault(replies) {
        Outcome::DiskFault
    } else if any_lack(replies) {
        Outcome::NoMemory
    } else if any_no(replies) {
        Outcome::No
    } else {
        Outcome::Done
    }
}

/// Whether any request failed by the disk.
fn any_fault(replies: &[Option<Reply>]) -> bool
    ensures { result ≡ list_any is_disk_no replies.now }
{
    replies.iter().any(has_fault)
}

/// Whether any request found no memory.
fn any_lack(replies: &[Option<Reply>]) -> bool
    ensures { result ≡ list_any is_lack replies.now }
{
    replies.iter().any(has_lack)
}

/// Whether any request was refused.
fn any_no(replies: &[Option<Reply>]) -> bool
    ensures { result ≡ list_any is_no replies.now }
{
    replies.iter().any(has_no)
}

/// Whether a request failed by the disk.
fn has_fault(answer: &Option<Reply>) -> bool
    ensures { result ≡ is_disk_no answer.now }
{
    matches!(
        answer,
        Some(Reply::Refused(Refusal::ReadFault | Refusal::Stopped))
    )
}

/// Whether a request found no memory.
fn has_lack(answer: &Option<Reply>) -> bool
    ensures { result ≡ is_lack answer.now }
{
    matches!(answer, Some(Reply::Refused(Refusal::NoMemory)))
}

/// Whether a request was refused.
fn has_no(answer: &Option<Reply>) -> bool
    ensures { result ≡ is_no answer.now }
{
    matches!(answer, Some(Reply::Refused(_)))
}
