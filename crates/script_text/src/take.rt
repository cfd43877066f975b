// One request at a time, taken from a source.
ghost use Rattle.std.specs.Prelude.{◌≡◌, ◌≤◌, ◌++◌, ◌∷◌, [], ℕ, length, IfOk, IfErr, IfSome, OnOk};
ghost use Rattle.mdbox_base.specs.Streams.{Taken};
ghost use Rattle.mdbox_base.specs.declared.requests.Request.{Request as RequestValue};
ghost use Rattle.script_text.specs.Script.{FitsLanes, message_text};
ghost use Rattle.script_text.specs.Taking.{HasNoLf, IsLineTaken, IsTakenFront, IsTakeError, IsUntaken, TakesUpTo, extent, request_line};

use crate::arguments::name_time_size;
use crate::cut::cut;
use crate::error::{Flaw, TakeError};
use crate::flaw::{line_after, need_of};
use crate::request::{MOST_OCTETS, lane_and_words, request_at};
use mdbox_base::{NoMemory, Octets, Request, Source};
use std::alloc::Global;

/// How many octets a line has at most, with its LF: the longest line of a request, one of keywords, has some 2,400.
const LINE_LIMIT: usize = 4_097;

/// How many octets are asked of a source at once.
const PIECE: usize = 65_536;

/// How far a text goes.
#[derive(Clone, Copy, Debug, PartialEq, Eq)]
pub struct Extent {
    pub octets: u64,
    /// How many octets are LF.
    pub lines: u64,
}

/// Takes the request in front of a source, with its lane, and no octet more; and says how far it goes. None at the source's end.
/// A line of more than 4,096 octets is no request. The source is asked for one octet of a line after another, and waits for none that
/// follows the request.
pub fn take_request<I: Source>(
    alloc: Global,
    source: &mut I,
    lanes: u32,
) -> Result<Option<((u32, Request), Extent)>, TakeError>
    ensures taken { IfOk result (IsTakenFront lanes (I.left source.old) (I.left source.new)) }
    ensures short { IfOk result (λ front. IfSome front (λ taken. (taken.1.octets ≤ 67110000) × (taken.1.lines ≤ 67110000))) }
    ensures untaken { IfErr result (IsUntaken lanes (I.left source.old) (I.faults source.old) (I.faults source.new)) }
    ensures quiet { OnOk result (I.faults source.new ≡ I.faults source.old) }
    ensures counted { I.faults source.old ≤ I.faults source.new }
{
    let mut text = Octets::empty(alloc);
    take_line(source, &mut text)?;
    if text.length() == 0 {
        return Ok(None);
    }
    let more = octets_after(alloc, text.as_slice(), lanes)?;
    take_octets(source, &mut text, more)?;
    match request_at(alloc, text.as_slice(), lanes) {
        Ok((asked, _)) => Ok(Some((asked, extent_of(text.as_slice())))),
        Err(Flaw::Bad) => Err(TakeError::Bad(need_of(alloc, text.as_slice(), lanes)?)),
        Err(Flaw::NoMemory) => Err(TakeError::NoMemory),
    }
}

/// How far a text goes.
fn extent_of(text: &[u8]) -> Extent
    ensures extent { result ≡ extent text.now }
    ensures fewer { result.lines ≤ length text.now }
{
    Extent {
        octets: text.len() as u64,
        lines: line_after(text) - 1,
    }
}

/// Takes a line with its LF. At the source's end, and where no LF stands among the first 4,097 octets, what was taken is no line.
fn take_line<I: Source>(source: &mut I, text: &mut Octets) -> Result<(), TakeError>
    requires { text.old ≡ [] }
    ensures taken { OnOk result (Taken (I.left source.old) text.new (I.left source.new)) }
    ensures line { OnOk result (IsLineTaken text.new (I.left source.new)) }
    ensures short { OnOk result (length text.new ≤ 4097) }
    ensures quiet { OnOk result (I.faults source.new ≡ I.faults source.old) }
    ensures unfailed { IfErr result (IsTakeError (I.faults source.old) (I.faults source.new)) }
    ensures counted { I.faults source.old ≤ I.faults source.new }
{
    let mut octet = [0; 1];
    while text.length() < LINE_LIMIT {
        if source.take(&mut octet)? == 0 {
            return Ok(());
        }
        text.push_all(&octet)?;
        if octet[0] == b'\n' {
            return Ok(());
        }
    }
    Ok(())
}

/// How many octets follow a line: those of a delivery's message and its LF. None follow what has no LF, or no lane.
fn octets_after(alloc: Global, text: &[u8], lanes: u32) -> Result<u64, NoMemory>
    ensures none { IfOk result (λ count. HasNoLf text.now → count ≡ 0) }
    ensures short { IfOk result (λ count. count ≤ 67108865) }
    ensures line { IfOk result (λ count. (asked : ℕ × RequestValue) → FitsLanes lanes asked → text.now ≡ request_line asked ++ 10 ∷ [] → length (message_text asked.1) ≡ count) }
{
    let Some((line, _)) = cut(text, b'\n') else {
        return Ok(0);
    };
    let Some((_, words)) = lane_and_words(line, lanes) else {
        return Ok(0);
    };
    let Some(arguments) = words.strip_prefix(b"deliver ") else {
        return Ok(0);
    };
    match name_time_size(alloc, arguments) {
        Ok((_, _, size)) if size <= MOST_OCTETS => Ok(size + 1),
        Ok(_) | Err(Flaw::Bad) => Ok(0),
        Err(Flaw::NoMemory) => Err(NoMemory),
    }
}

/// Takes so many octets more, or fewer at the source's end.
fn take_octets<I: Source>(source: &mut I, text: &mut Octets, count: u64) -> Result<(), TakeError>
    ensures taken { OnOk result (TakesUpTo count text.old text.new (I.left source.old) (I.left source.new)) }
    ensures quiet { OnOk result (I.faults source.new ≡ I.faults source.old) }
    ensures unfailed { IfErr result (IsTakeError (I.faults source.old) (I.faults source.new)) }
    ensures counted { I.faults source.old ≤ I.faults source.new }
{
    let mut piece = [0; PIECE];
    let mut room = count;
    while room > 0 {
        let size = room.min(PIECE as u64) as usize;
        let taken = source.take(&mut piece[..size])?;
        if taken == 0 {
            return Ok(());
        }
        text.push_all(&piece[..taken])?;
        room -= taken as u64;
    }
    Ok(())
}
