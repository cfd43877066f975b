// Storage files.
use crate::line_text::push_line;
use case_text::{Stream, Texts, push_shown};
use dbox_file::{message_at, push_file_header, scan};
use mdbox_base::{NoMemory, Octets};
use model_storage::{MessageAt, ScanError};
use std::alloc::Global;

fn push_place(alloc: Global, out: &mut String, at: &MessageAt) -> Result<(), NoMemory> {
    let (offset, body, size) = (at.offset, at.body, at.size);
    let (lines, end) = (at.lines, at.end);
    let text = format!(in alloc; "{offset}: {size} octets at {body}, lines at {lines}, end {end}")?;
    push_line(out, text.as_str())
}

/// Where the messages of a storage file are: the first ones and the last, and how many there are. Or why it is none.
pub fn tell_scan(alloc: Global, out: &mut String, octets: &[u8]) -> Result<(), NoMemory> {
    let messages = match scan(alloc, octets) {
        Ok(messages) => messages,
        Err(ScanError::NoMemory) => return Err(NoMemory),
        Err(error) => {
            let text = format!(in alloc; "{error}")?;
            return push_line(out, text.as_str());
        }
    };
    let count = messages.length();
    let mut number = 0usize;
    for at in messages.as_slice() {
        number = number.saturating_add(1);
        if number <= 4 || number == count {
            push_place(alloc, out, at)?;
        }
    }
    let text = format!(in alloc; "{count} messages")?;
    push_line(out, text.as_str())
}

/// The message at an offset: the offset and the name of the octets.
pub fn tell_message(
    alloc: Global,
    out: &mut String,
    texts: &Texts,
    line: &str,
) -> Result<bool, NoMemory> {
    let (offset, name) = line.split_once(' ').unwrap_or((line, ""));
    let (Ok(offset), Some(octets)) = (offset.parse::<u64>(), texts.find(name)) else {
        return Ok(false);
    };
    if offset > octets.len() as u64 {
        return Ok(false);
    }
    match message_at(octets, offset) {
        Ok(at) => push_place(alloc, out, &at)?,
        Err(error) => {
            let text = format!(in alloc; "{error}")?;
            push_line(out, text.as_str())?;
        }
    }
    Ok(true)
}

/// The header line of a storage file that is made at this time, in Unix seconds.
pub fn tell_header(
    alloc: Global,
    out: &mut String,
    texts: &Texts,
    line: &str,
) -> Result<bool, NoMemory> {
    let Ok(time) = line.parse::<u64>() else {
        return Ok(false);
    };
    let mut header = Octets::empty(alloc);
    push_file_header(alloc, &mut header, time)?;
    push_shown(out, texts, Stream::Output, header.as_slice())?;
    Ok(true)
}
