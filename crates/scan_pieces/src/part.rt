// What stands at the beginning of a part of a storage file.
ghost use Rattle.std.specs.Prelude.{◌≡◌, ◌≤◌, ◌<◌, ◌+◌, ◌^◌, ℕ, length, take, drop, Some, IfOk};
ghost use Rattle.model_storage.specs.StorageFile.{IsMessageHeader};
ghost use Rattle.scan_pieces.specs.Pieces.{TextGives, BlockGives, empty_header};
ghost use Rattle.scan_pieces.specs.WindowValue.{is_short};

use dbox_file::{MessageAt, PlaceError, message_at};
use mdbox_base::read_hex;

/// How many octets a message's header has.
pub const HEADER: usize = 30;

/// The message at the beginning of a text that stands at this offset of its file.
pub fn message_in(text: &[u8], offset: u64) -> Result<MessageAt, PlaceError>
    requires { offset + length text.now < 2 ^ 64 }
    ensures gives { TextGives text.now offset result }
    ensures within { IfOk result (λ place. (offset < place.end) × (place.end ≤ offset + length text.now)) }
{
    match message_at(text, 0) {
        Ok(place) => Ok(place_from(offset, place.size, offset + place.end)),
        Err(PlaceError::Truncated(_)) => Err(PlaceError::Truncated(offset)),
        Err(PlaceError::BadMessage(_)) => Err(PlaceError::BadMessage(offset)),
    }
}

/// The place of a message from one offset to another, with a body of this size.
pub fn place_from(offset: u64, size: u64, end: u64) -> MessageAt
    requires { offset + 34 + size ≤ end }
    ensures { result ≡ record { offset = offset; body = offset + 30; size = size; lines = offset + 30 + size + 4; end = end } }
{
    let body = offset + HEADER as u64;
    MessageAt {
        offset,
        body,
        size,
        lines: body + size + 4,
        end,
    }
}

/// The size of the body that a message header at the beginning tells.
pub fn size_told(text: &[u8]) -> Option<u64>
    requires { 30 ≤ length text.now }
    ensures { (size : ℕ) → IsMessageHeader (take 30 text.now) size → result ≡ Some size }
{
    read_hex(&text[13..29])
}

/// The block of metadata that follows the header of a message without a body.
pub fn block_in(framed: &[u8]) -> Result<MessageAt, PlaceError>
    requires { take 30 framed.now ≡ empty_header }
    ensures { BlockGives (drop 30 framed.now) result }
{
    message_at(framed, 0)
}

/// Whether the answer is that a text is only a prefix of a message.
pub fn is_short(answer: &Result<MessageAt, PlaceError>) -> bool
    ensures { result ≡ is_short answer.now }
{
    matches!(answer, Err(PlaceError::Truncated(_)))
}
