// The reader of a message, line by line, with a stack of boundaries.
ghost use Rattle.std.specs.Prelude.{◌≡◌, ◌≤◌, ◌<◌, ◌+◌, ◌-◌, ◌==◌, ◌++◌, if◌then◌else◌, ℕ, List, [], length, take, Some, None, IfOk, OnOk, IfSome, IfNone, MatchBool, true, false};
ghost use Rattle.std.specs.List.{list_any};
ghost use Rattle.model_mime.specs.Lines.{range, IsLineAt};
ghost use Rattle.model_mime.specs.Parts.{ends_part, part_of, trimmed_size, parts_in};
ghost use Rattle.mime_parts.specs.Marks.{MarkSays, EndsAt};
ghost use Rattle.mime_parts.specs.ToCome.{own_end};
ghost use Rattle.mime_parts.specs.declared.mark.Mark.{Mark};
ghost use Rattle.mime_parts.specs.Reading.{IsRead, boundary_in, after_head, IsOutsideParts, ReadingEndsAs, Flushes, Ended};

use crate::mark::{Ending, ending_of};
use mdbox_base::{NoMemory, Seq};
use mime_fields::{next_line, read_fields};
use model_mime::{Boundary, Coding, Fields, Kind, Line, Part};
use std::alloc::Global;

/// The most entities in one another, counted from the message.
const MOST_LEVELS: usize = 64;

/// The most leaves of a message.
const MOST_LEAVES: usize = 10_000;

/// The least octets that are worth a file of their own.
const LEAST_DETACHED: usize = 131_072;

/// Where the reader stands: between parts, in the header block of an entity, or in the body of a leaf.
#[derive(Clone, Copy, Debug, PartialEq, Eq)]
pub enum Place {
    Between,
    Head {
        start: usize,
    },
    /// The body starts at `body`; `other` where its kind can be detached.
    Body {
        start: usize,
        body: usize,
        coding: Coding,
        other: bool,
    },
}

/// The boundaries of the multiparts that are open, from the outermost on, where the reader stands, where the text of
/// the line before ends, and the parts so far.
#[derive(Drop)]
pub struct Reader {
    stack: Vec<Boundary>,
    place: Place,
    before: usize,
    parts: Vec<Part>,
}

impl Reader {
    /// A reader before the first line.
    pub fn new(alloc: Global, message: &[u8]) -> Reader
        ensures { IsRead message.now result 0 }
    {
        Reader {
            stack: Vec::new(alloc),
            place: Place::Head { start: 0 },
            before: 0,
            parts: Vec::new(alloc),
        }
    }

    /// The parts that were found.
    pub fn into_parts(self) -> Seq<Part>
        ensures { result ≡ self.parts.items }
    {
        Seq::of(self.parts)
    }

    /// The line that starts at a place. None where no line from there on can change what is found: the message ends there,
    /// or no multipart and no header block is open.
    pub fn next_line(&self, message: &[u8], at: usize) -> Option<Line>
        requires read { IsRead message.now self.now at }
        ensures line { IfSome result (λ line. IsLineAt message.now at line) }
        ensures end { IfNone result (ReadingEndsAs message.now self.now at) }
    {
        if self.is_settled() {
            return None;
        }
        next_line(message, at)
    }

    /// Whether no multipart and no header block is open.
    fn is_settled(&self) -> bool
        ensures { result ≡ true → IsOutsideParts self.now }
    {
        self.stack.is_empty() && !matches!(self.place, Place::Head { .. })
    }

    /// Takes the next line. False where the message has too many levels or leaves.
    pub fn take_line(&mut self, message: &[u8], line: Line) -> Result<bool, NoMemory>
        requires small { length message.now ≤ 67108864 }
        requires read { IsRead message.now self.old line.start }
        requires line { IsLineAt message.now line.start line }
        ensures { IfOk result (λ going. MatchBool going (IsRead message.now self.new line.next) (parts_in message.now ≡ [])) }
    {
        let text = &message[line.start..line.end];
        match ending_of(self.stack.as_slice(), text) {
            Ending::Nothing => self.pass(message, line),
            Ending::Delimiter(k) => self.delimit(message, line, k),
            Ending::Closing(k) => self.close(message, line, k),
        }
    }

    /// Takes a line that ends no part.
    fn pass(&mut self, message: &[u8], line: Line) -> Result<bool, NoMemory>
        requires read { IsRead message.now self.old line.start }
        requires line { IsLineAt message.now line.start line }
        requires none { list_any (λ b. ends_part b (range message.now line.start line.end)) self.old.stack.items ≡ false }
        ensures { IfOk result (λ going. MatchBool going (IsRead message.now self.new line.next) (parts_in message.now ≡ [])) }
    {
        if let Place::Head { start } = self.place {
            if line.start == line.end {
                self.end_head(start, line.next, read_fields(&message[start..line.start]))?;
            }
        }
        self.before = line.end;
        Ok(true)
    }

    /// Ends the header block that started there and has these fields. Parts follow it, or the body of a leaf.
    fn end_head(&mut self, start: usize, body: usize, fields: Fields) -> Result<(), NoMemory>
        ensures stack { OnOk result (self.new.stack.items ≡ self.old.stack.items ++ boundary_in fields.kind) }
        ensures place { OnOk result (self.new.place ≡ after_head start body fields.coding fields.kind) }
        ensures parts { self.new.parts.items ≡ self.old.parts.items }
    {
        let other = matches!(fields.kind, Kind::Other);
        if let Kind::Multipart(boundary) = fields.kind {
            self.stack.push(boundary)?;
            self.place = Place::Between;
        } else {
            self.place = Place::Body {
                start,
                body,
                coding: fields.coding,
                other,
            };
        }
        Ok(())
    }

    /// Takes a delimiter line of the multipart at this place of the stack.
    fn delimit(&mut self, message: &[u8], line: Line, k: usize) -> Result<bool, NoMemory>
        requires small { length message.now ≤ 67108864 }
        requires read { IsRead message.now self.old line.start }
        requires line { IsLineAt message.now line.start line }
        requires ends { EndsAt self.old.stack.items (range message.now line.start line.end) k (MarkSays Mark.Delimiter) }
        ensures { IfOk result (λ going. MatchBool going (IsRead message.now self.new line.next) (parts_in message.now ≡ [])) }
    {
        let end = self.end_at(k);
        if !self.end_open(message, end)? {
            return Ok(false);
        }
        self.stack.truncate(k + 1);
        self.place = Place::Head { start: line.next };
        self.before = line.end;
        Ok(k + 1 < MOST_LEVELS)
    }

    /// Takes a closing line of the multipart at this place of the stack.
    fn close(&mut self, message: &[u8], line: Line, k: usize) -> Result<bool, NoMemory>
        requires small { length message.now ≤ 67108864 }
        requires read { IsRead message.now self.old line.start }
        requires line { IsLineAt message.now line.start line }
        requires ends { EndsAt self.old.stack.items (range message.now line.start line.end) k (MarkSays Mark.Closing) }
        ensures { IfOk result (λ going. MatchBool going (IsRead message.now self.new line.next) (parts_in message.now ≡ [])) }
    {
        let end = self.end_at(k);
        if !self.end_open(message, end)? {
            return Ok(false);
        }
        self.stack.truncate(k);
        self.place = Place::Between;
        self.before = line.end;
        Ok(true)
    }

    /// Ends what is open. False where there are too many parts.
    pub fn end_open(&mut self, message: &[u8], end: usize) -> Result<bool, NoMemory>
        requires small { length message.now ≤ 67108864 }
        requires end { end ≤ length message.now }
        requires few { length self.old.parts.items ≤ 10000 }
        ensures { IfOk result (λ going. Ended message.now self.old self.new end going) }
    {
        if let Some(part) = flush(message, self.place, end) {
            if self.parts.len() >= MOST_LEAVES {
                return Ok(false);
            }
            self.parts.push(part)?;
        }
        Ok(true)
    }

    /// Where what is open ends, at a line of the multipart at this place of the stack: a part that its own boundary ends
    /// at once is empty at its start.
    fn end_at(&self, k: usize) -> usize
        requires { k < length self.now.stack.items }
        ensures { result ≡ (if k + 1 == length self.now.stack.items then own_end self.now.place self.now.before else self.now.before) }
    {
        if k + 1 == self.stack.len() {
            own_end_of(self.place, self.before)
        } else {
            self.before
        }
    }
}

fn own_end_of(place: Place, before: usize) -> usize
    ensures { result ≡ own_end place before }
{
    match place {
        Place::Between => before,
        Place::Head { start } | Place::Body { start, .. } => if start < before {
            before
        } else {
            start
        },
    }
}

/// The part of what is open, where it ends there.
fn flush(message: &[u8], place: Place, end: usize) -> Option<Part>
    requires small { length message.now ≤ 67108864 }
    requires end { end ≤ length message.now }
    ensures { Flushes result message.now place end }
{
    match place {
        Place::Between => None,
        Place::Head { start } => {
            let from = if start < end { start } else { end };
            let fields = read_fields(&message[from..end]);
            match fields.kind {
                Kind::Multipart(_) => None,
                Kind::Other => Some(make_part(message, fields.coding, true, end, end)),
                _ => Some(make_part(message, fields.coding, false, end, end)),
            }
        }
        Place::Body {
            start: _,
            body,
            coding,
            other,
        } => {
            let from = if body < end { body } else { end };
            Some(make_part(message, coding, other, from, end))
        }
    }
}

/// The part of a leaf whose body is this range.
fn make_part(message: &[u8], coding: Coding, other: bool, start: usize, end: usize) -> Part
    requires small { length message.now ≤ 67108864 }
    requires order { start ≤ end }
    requires within { end ≤ length message.now }
    ensures { result ≡ part_of message.now coding other start end }
{
    let size = trimmed(&message[start..end]);
    if other && size >= LEAST_DETACHED {
        Part {
            start: start as u32,
            end: (start + size) as u32,
            coding,
            detachable: true,
        }
    } else {
        Part {
            start: start as u32,
            end: end as u32,
            coding,
            detachable: false,
        }
    }
}

/// The size of a text without the line breaks at its end.
fn trimmed(text: &[u8]) -> usize
    ensures value { result ≡ trimmed_size text.now }
    ensures within { result ≤ length text.now }
{
    let mut end = text.len();
    while end > 0 && (text[end - 1] == b'\n' || text[end - 1] == b'\r') {
        end -= 1;
    }
    end
}
