// The lines of replies that have a bound. They need no memory, so a reply to a change that was made is never lost for want of it.
ghost use Rattle.std.specs.Prelude.{◌≡◌, ◌≤◌, ◌+◌, ◌*◌, ◌++◌, ◌∷◌, [], length, codes};
ghost use Rattle.mdbox_base.specs.Numbers.{decimal_text};
ghost use Rattle.mdbox_base.specs.declared.replies.Refusal.TheVariants as refusal;
ghost use Rattle.mdbox_base.specs.declared.replies.Reply.TheVariants as reply;
ghost use Rattle.request_text.specs.ReplyText.{numbers_text, guid_text, gone_text, ok_line, refusal_text, reply_text, IsLong};

use arrayvec::ArrayVec;
use itoa::Buffer;
use mdbox_base::{FileNo, Guid, Refusal, Reply, Uid};
use std::marker::Model;

/// The most octets of a line.
const ROOM: usize = 256;

/// A line of at most 256 octets.
#[derive(Drop)]
pub struct Line {
    octets: ArrayVec<u8, ROOM>,
}

impl Model for Line {
    ghost use Rattle.std.specs.Prelude.{ℕ, List, ◌≤◌, length};

    ghost Value = { List ℕ };

    ghost view = { λ line. line.octets.items };

    ghost invariant = { λ line. length line.octets.items ≤ 256 };
}

impl Line {
    /// No octets.
    fn empty() -> Line
        ensures { result ≡ [] }
    {
        Line {
            octets: ArrayVec::new(),
        }
    }

    /// The octets.
    pub fn as_slice(&self) -> &[u8]
        ensures { result.now ≡ self.now }
    {
        self.octets.as_slice()
    }

    /// Adds a text, for which there is room.
    fn push(&mut self, text: &[u8])
        requires { length self.old + length text.now ≤ 256 }
        ensures { self.new ≡ self.old ++ text.now }
    {
        match self.octets.try_extend_from_slice(text) {
            Ok(()) => {}
            Err(_) => unreachable!(),
        }
    }

    /// Adds a number in decimal.
    fn push_decimal(&mut self, number: u64)
        requires { length self.old + 40 ≤ 256 }
        ensures text { self.new ≡ self.old ++ decimal_text number }
        ensures room { length self.new ≤ length self.old + 40 }
    {
        self.push(Buffer::new().format(number).as_bytes());
    }

    /// Adds a number in decimal, behind a space.
    fn push_number(&mut self, number: u64)
        requires { length self.old + 41 ≤ 256 }
        ensures text { self.new ≡ self.old ++ (32 ∷ decimal_text number) }
        ensures room { length self.new ≤ length self.old + 41 }
    {
        self.push(b" ");
        self.push_decimal(number);
    }

    /// Adds numbers in decimal, each behind a space.
    fn push_numbers(&mut self, numbers: &[u64])
        requires { length self.old + length numbers.now * 41 ≤ 256 }
        ensures text { self.new ≡ self.old ++ numbers_text numbers.now }
        ensures room { length self.new ≤ length self.old + length numbers.now * 41 }
    {
        for number in numbers {
            self.push_number(*number);
        }
    }

    /// Adds why a request is refused, and a number.
    fn push_reason(&mut self, reason: &[u8], number: u64)
        requires { length self.old + length reason.now + 41 ≤ 256 }
        ensures text { self.new ≡ self.old ++ (reason.now ++ numbers_text (number ∷ [])) }
        ensures room { length self.new ≤ length self.old + length reason.now + 41 }
    {
        self.push(reason);
        self.push_number(number);
    }

    /// Adds where a storage file is damaged.
    fn push_damage(&mut self, file: FileNo, offset: u64)
        requires { length self.old ≤ 3 }
        ensures text { self.new ≡ self.old ++ refusal_text (refusal.Damaged file offset) }
        ensures room { length self.new ≤ 255 }
    {
        self.push(b"20 damaged ");
        self.push(b"storage/m.");
        self.push_decimal(file.0 as u64);
        self.push_number(offset);
    }

    /// Adds the number of a refusal, and why.
    fn push_refusal(&mut self, refusal: Refusal)
        requires { length self.old ≤ 3 }
        ensures text { self.new ≡ self.old ++ refusal_text refusal }
        ensures room { length self.new ≤ 255 }
    {
        match refusal {
            Refusal::NoMailbox => self.push(b"10 no mailbox"),
            Refusal::Exists => self.push(b"11 exists"),
            Refusal::NoMessage => self.push(b"12 no message"),
            Refusal::TooManyCopies(most) => self.push_reason(b"13 too many copies", most),
            Refusal::MailboxFull(most) => self.push_reason(b"14 mailbox full", most),
            Refusal::TooManyMailboxes(most) => self.push_reason(b"15 too many mailboxes", most),
            Refusal::StoreFull(most) => self.push_reason(b"16 store full", most),
            Refusal::NoMemory => self.push(b"17 memory"),
            Refusal::ReadFault => self.push(b"18 read fault"),
            Refusal::Stopped => self.push(b"19 stopped"),
            Refusal::Damaged { file, offset } => self.push_damage(file, offset),
            Refusal::Inbox => self.push(b"21 inbox"),
            Refusal::Sealed => self.push(b"22 sealed"),
        }
    }

    /// Adds the digits of a GUID, behind a space.
    fn push_guid(&mut self, guid: Guid)
        requires { length self.old + 33 ≤ 256 }
        ensures text { self.new ≡ self.old ++ guid_text guid }
        ensures room { length self.new ≡ length self.old + 33 }
    {
        let mut digits = [0u8; 32];
        match hex::encode_to_slice(guid.0.as_slice(), &mut digits) {
            Ok(()) => {
                self.push(b" ");
                self.push(&digits);
            }
            Err(_) => unreachable!(),
        }
    }
}

/// The line of a reply that is no listing and no message.
pub fn reply_line(given: &Reply) -> Line
    requires bounded { IsLong given.now → ⊥ }
    ensures { result ≡ reply_text given.now }
{
    match given {
        Reply::Saved { uid, guid } => saved_line(*uid, *guid),
        Reply::Listed(_) => unreachable!(),
        Reply::Fetched(_) => unreachable!(),
        Reply::Done => numbers_line(&[]),
        Reply::Copied { uid } => numbers_line(&[uid.0 as u64]),
        Reply::Moved { uid, gone } => moved_line(*uid, *gone),
        Reply::Counted {
            records,
            references,
            counts,
            instances,
        } => numbers_line(&[*records, *references, *counts, *instances]),
        Reply::Purged {
            dropped,
            files,
            instances,
        } => numbers_line(&[*dropped, *files, *instances]),
        Reply::Resynced { corrected, damaged } => numbers_line(&[*corrected, *damaged]),
        Reply::AltMoved { moved, dropped } => numbers_line(&[*moved, *dropped]),
        Reply::Refused(refusal) => refusal_line(*refusal),
    }
}

/// The beginning of a line of `OK` and at most four numbers.
fn ok_begun(numbers: &[u64]) -> Line
    requires { length numbers.now ≤ 4 }
    ensures text { result ≡ codes "OK" ++ numbers_text numbers.now }
    ensures room { length result ≤ 2 + length numbers.now * 41 }
{
    let mut line = Line::empty();
    line.push(b"OK");
    line.push_numbers(numbers);
    line
}

/// A line of `OK` and at most four numbers.
pub fn numbers_line(numbers: &[u64]) -> Line
    requires { length numbers.now ≤ 4 }
    ensures { result ≡ ok_line (numbers_text numbers.now) }
{
    let mut line = ok_begun(numbers);
    line.push(b"\n");
    line
}

/// The line of a message that was saved.
fn saved_line(uid: Uid, guid: Guid) -> Line
    ensures { result ≡ reply_text (reply.Saved uid guid) }
{
    let mut line = ok_begun(&[uid.0 as u64]);
    line.push_guid(guid);
    line.push(b"\n");
    line
}

/// The line of a message that was moved.
fn moved_line(uid: Uid, gone: bool) -> Line
    ensures { result ≡ reply_text (reply.Moved uid gone) }
{
    let mut line = ok_begun(&[uid.0 as u64]);
    if gone {
        line.push(b" GONE");
    }
    line.push(b"\n");
    line
}

/// The line of a refusal.
fn refusal_line(refusal: Refusal) -> Line
    ensures { result ≡ reply_text (reply.Refused refusal) }
{
    let mut line = Line::empty();
    line.push(b"NO ");
    line.push_refusal(refusal);
    line.push(b"\n");
    line
}
