// Octets in the form in which lines want them.
use crate::texts::Texts;
use mdbox_base::NoMemory;
use std::fmt::Write;

/// Where octets were written to.
#[derive(Clone, Copy, Debug, PartialEq, Eq)]
pub enum Stream {
    Output,
    Errors,
}

impl Stream {
    /// What stands before a line of it.
    fn mark(self) -> &'static str {
        match self {
            Stream::Output => ".",
            Stream::Errors => "!",
        }
    }
}

/// How many octets are shown as lines at the most.
const MOST: usize = 4_000;

/// How many octets are shown of each end of others.
const ENDS: usize = 64;

/// Adds octets: their name, or else their lines, each after the stream's mark, or else how many there are and the hexadecimal
/// digits of the first and the last. Nothing if there are none.
pub fn push_shown(
    out: &mut String,
    texts: &Texts,
    stream: Stream,
    octets: &[u8],
) -> Result<(), NoMemory> {
    if octets.is_empty() {
        return Ok(());
    }
    match texts.name_of(octets) {
        Some(name) => {
            out.push_str("= ")?;
            out.push_str(name)?;
            out.push_str("\n")?;
            Ok(())
        }
        None => push_unnamed(out, stream, octets),
    }
}

fn push_unnamed(out: &mut String, stream: Stream, octets: &[u8]) -> Result<(), NoMemory> {
    match str::from_utf8(octets) {
        Ok(text) if are_lines(octets) => push_lines(out, stream, text),
        _ => push_ends(out, octets),
    }
}

/// Whether octets are few whole lines of visible characters, so that their lines tell them.
fn are_lines(octets: &[u8]) -> bool {
    octets.len() <= MOST && octets.ends_with(b"\n") && are_visible(octets)
}

fn are_visible(octets: &[u8]) -> bool {
    for octet in octets {
        if !matches!(*octet, b'\n' | b' '..=b'~') {
            return false;
        }
    }
    true
}

fn push_lines(out: &mut String, stream: Stream, text: &str) -> Result<(), NoMemory> {
    for line in text.lines() {
        out.push_str(stream.mark())?;
        if !line.is_empty() {
            out.push_str(" ")?;
            out.push_str(line)?;
        }
        out.push_str("\n")?;
    }
    Ok(())
}

/// Adds how many octets there are, and the digits of the first and the last.
fn push_ends(out: &mut String, octets: &[u8]) -> Result<(), NoMemory> {
    let count = octets.len();
    write!(out, "x {count} octets: ")?;
    for octet in octets.iter().take(ENDS) {
        push_octet(out, *octet)?;
    }
    if count > ENDS {
        out.push_str(" .. ")?;
        for octet in octets.iter().skip(count.saturating_sub(ENDS)) {
            push_octet(out, *octet)?;
        }
    }
    out.push_str("\n")?;
    Ok(())
}

const DIGITS: [&str; 16] = [
    "0", "1", "2", "3", "4", "5", "6", "7", "8", "9", "a", "b", "c", "d", "e", "f",
];

fn push_octet(out: &mut String, octet: u8) -> Result<(), NoMemory> {
    out.push_str(DIGITS[(octet / 16) as usize])?;
    out.push_str(DIGITS[(octet % 16) as usize])?;
    Ok(())
}
