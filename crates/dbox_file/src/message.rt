// One message of a storage file.
ghost use Rattle.std.specs.Prelude.{◌≡◌, ◌≤◌, ◌<◌, ◌+◌, ◌↔◌, min, take, drop, ℕ, List, length, IsTrue, IfOk, IfErr};
ghost use Rattle.std.specs.Char.{is_ascii_hexdigit};
ghost use Rattle.std.specs.List.{list_all};
ghost use Rattle.model_storage.specs.StorageFile.{IsMessageHeader, IsBlock, IsMessage, PlaceGives};
ghost use Rattle.dbox_file.specs.Reading.{StandsFirst, FoundSome, Flawed};
ghost use Rattle.dbox_file.specs.Sizes.{IsSize, is_zero_digit};
ghost use Rattle.dbox_file.specs.MessageFound.{HasMessage};

use crate::lines::behind_lines;
use crate::reading::{Flaw, behind, behind_any, behind_printing};
use mdbox_base::read_hex;
use model_storage::{MessageAt, PlaceError};

/// How a message's header begins.
const MARK: &[u8] = b"\x01\x02N";
/// How many octets of a message's header are of no meaning.
const FILLER: usize = 10;
/// How many digits tell the body's size.
const SIZE_DIGITS: usize = 16;
/// How large a body may be.
const MAX_BODY: u64 = 4_294_967_295;
/// How many octets a message's header has.
const HEADER: u64 = 30;
/// What stands between a body and its metadata lines.
pub const TRAILER: &[u8] = b"\n\x01\x03\n";

/// The place of the message at an offset, which is at most the file's length.
/// A rest that may go on to be a message is `Truncated`, also an empty one.
pub fn message_at(file: &[u8], offset: u64) -> Result<MessageAt, PlaceError>
    requires { offset ≤ length file.now }
    ensures { PlaceGives file.now offset result }
{
    let (_, text) = file.split_at(offset as usize);
    match message(text) {
        Ok((size, rest)) => Ok(place(offset, size, offset + (text.len() - rest.len()) as u64)),
        Err(Flaw::Short) => Err(PlaceError::Truncated(offset)),
        Err(Flaw::Bad) => Err(PlaceError::BadMessage(offset)),
    }
}

/// The place of a message from one offset to another, with a body of this size.
fn place(offset: u64, size: u64, end: u64) -> MessageAt
    requires { offset + 34 + size ≤ end }
    ensures { result ≡ record { offset = offset; body = offset + 30; size = size; lines = offset + 30 + size + 4; end = end } }
{
    let body = offset + HEADER;
    MessageAt {
        offset,
        body,
        size,
        lines: body + size + TRAILER.len() as u64,
        end,
    }
}

/// The size of the body of the message at the front, and what follows the message.
fn message(text: &[u8]) -> Result<(u64, &[u8]), Flaw>
    ensures found { IfOk result (λ x. HasMessage text.now x.0 x.1.now) }
    ensures flaw { IfErr result (Flawed IsMessage text.now) }
{
    let (size, rest) = message_header(text)?;
    let rest = behind_any(rest, size)?;
    let rest = behind_block(rest)?;
    Ok((size, rest))
}

/// The size of the body that the message header at the front tells, and what follows the header.
pub fn message_header(text: &[u8]) -> Result<(u64, &[u8]), Flaw>
    ensures found { IfOk result (λ x. StandsFirst IsMessageHeader text.now x.0 x.1.now) }
    ensures flaw { IfErr result (Flawed IsMessageHeader text.now) }
{
    let rest = behind(text, MARK)?;
    let rest = behind_printing(rest, FILLER)?;
    let (size, rest) = body_size(rest)?;
    let rest = behind(rest, b"\n")?;
    Ok((size, rest))
}

/// What follows the block of metadata.
pub fn behind_block(text: &[u8]) -> Result<&[u8], Flaw>
    ensures found { IfOk result (λ rest. FoundSome IsBlock text.now rest.now) }
    ensures flaw { IfErr result (Flawed IsBlock text.now) }
{
    let rest = behind(text, TRAILER)?;
    behind_lines(rest)
}

/// The size of a body in sixteen hexadecimal digits, and what follows them.
fn body_size(text: &[u8]) -> Result<(u64, &[u8]), Flaw>
    ensures found { IfOk result (λ x. StandsFirst IsSize text.now x.0 x.1.now) }
    ensures flaw { IfErr result (Flawed IsSize text.now) }
{
    if text.len() < SIZE_DIGITS {
        return Err(flaw_of_size(text));
    }
    let (digits, rest) = text.split_at(SIZE_DIGITS);
    match read_hex(digits) {
        Some(size) if size <= MAX_BODY => Ok((size, rest)),
        _ => Err(Flaw::Bad),
    }
}

/// Whether fewer than sixteen octets may be the front of a size: no body has more than eight digits.
fn flaw_of_size(text: &[u8]) -> Flaw
    requires { length text.now < 16 }
    ensures { Flawed IsSize text.now result }
{
    let (high, low) = text.split_at(text.len().min(8));
    if all_zeros(high) && all_digits(low) {
        Flaw::Short
    } else {
        Flaw::Bad
    }
}

fn all_zeros(text: &[u8]) -> bool
    ensures { result ≡ list_all is_zero_digit text.now }
{
    text.iter().all(|octet| *octet == b'0')
}

fn all_digits(text: &[u8]) -> bool
    ensures { result ≡ list_all is_ascii_hexdigit text.now }
{
    text.iter().all(|octet| octet.is_ascii_hexdigit())
}
