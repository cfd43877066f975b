// The written form of a storage file.
ghost use Rattle.std.specs.Prelude.{◌≡◌, ◌≤◌, ◌<◌, ◌+◌, ◌^◌, ◌++◌, ◌∷◌, [], ℕ, List, length, replicate, IfOk, OnOk, OnErr};
ghost use Rattle.model_storage.specs.StorageFile.{Line, AreLines};
ghost use Rattle.model_storage.specs.WrittenFile.{upper_digit, upper_digits, written_header, written_message};
ghost use Rattle.dbox_file.specs.Written.{header_text, block_text};

use crate::message::TRAILER;
use mdbox_base::{NoMemory, Octets, push_hex};
use std::alloc::Global;
use std::mem;

/// A message's header, with spaces and no size yet.
const BLANK_HEADER: [u8; 30] = *b"\x01\x02N          0000000000000000\n";

/// Appends the header line of a new storage file, with its creation time in Unix seconds. Without memory nothing is
/// appended.
pub fn push_file_header(alloc: Global, out: &mut Octets, time: u64) -> Result<(), NoMemory>
    ensures ok { OnOk result (out.new ≡ out.old ++ written_header time) }
    ensures err { OnErr result (out.new ≡ out.old) }
{
    let mut line = Octets::empty(alloc);
    line.push_all(b"2 M1e C")?;
    push_hex(&mut line, time)?;
    line.push_all(b"\n")?;
    out.push_all(line.as_slice())
}

/// Appends a message with this body and this row of metadata lines. Room for all of it is taken at once, and the body is
/// copied once. Without memory nothing is appended.
pub fn push_message(
    alloc: Global,
    out: &mut Octets,
    body: &[u8],
    lines: &[u8],
) -> Result<(), NoMemory>
    requires body { length body.now ≤ 4294967295 }
    requires lines { (rows : List Line) × AreLines lines.now rows }
    requires block { length lines.now + 5 ≤ 1048576 }
    ensures ok { OnOk result ((rows : List Line) → AreLines lines.now rows → out.new ≡ out.old ++ written_message (record { body = body.now; lines = rows })) }
    ensures err { OnErr result (out.new ≡ out.old) }
{
    let mut text = mem::replace(out, Octets::empty(alloc)).into_vec();
    let before = text.len();
    let pushed = push_parts(&mut text, body, lines);
    if pushed.is_err() {
        text.truncate(before);
    }
    *out = Octets::of(text);
    pushed
}

/// Appends the parts of a message. Without memory some of it may be there.
fn push_parts(out: &mut Vec<u8>, body: &[u8], lines: &[u8]) -> Result<(), NoMemory>
    requires body { length body.now ≤ 4294967295 }
    requires block { length lines.now + 5 ≤ 1048576 }
    ensures ok { OnOk result (out.new.items ≡ out.old.items ++ (header_text (length body.now) ++ (body.now ++ block_text lines.now))) }
    ensures err { OnErr result ((more : List ℕ) × (out.new.items ≡ out.old.items ++ more)) }
{
    let header = message_header(body.len());
    out.reserve(header.len() + body.len() + TRAILER.len() + lines.len() + 1)?;
    out.extend_from_slice(&header)?;
    out.extend_from_slice(body)?;
    out.extend_from_slice(TRAILER)?;
    out.extend_from_slice(lines)?;
    out.extend_from_slice(b"\n")?;
    Ok(())
}

/// What stands behind a message's body: the block of these metadata lines.
pub fn metadata_block(alloc: Global, lines: &[u8]) -> Result<Vec<u8>, NoMemory>
    requires { length lines.now + 5 ≤ 1048576 }
    ensures { IfOk result (λ block. block.items ≡ block_text lines.now) }
{
    let mut block = Vec::new(alloc);
    block.reserve(TRAILER.len() + lines.len() + 1)?;
    block.extend_from_slice(TRAILER)?;
    block.extend_from_slice(lines)?;
    block.extend_from_slice(b"\n")?;
    Ok(block)
}

/// The header of a message with a body of this size.
pub fn message_header(size: usize) -> [u8; 30]
    ensures { result ≡ header_text size }
{
    let mut header = BLANK_HEADER;
    put_digits(&mut header[13..29], size);
    header
}

/// Fills a text with the last upper-case hexadecimal digits of a number.
fn put_digits(into: &mut [u8], number: usize)
    ensures { into.new ≡ upper_digits (length into.old) number }
{
    let mut rest = number;
    let mut end = into.len();
    while end > 0 {
        end -= 1;
        into[end] = digit(rest % 16);
        rest /= 16;
    }
}

/// The upper-case character of a digit below 16.
fn digit(value: usize) -> u8
    requires { value < 16 }
    ensures { result ≡ upper_digit value }
{
    if value < 10 {
        b'0' + value as u8
    } else {
        55 + value as u8
    }
}
