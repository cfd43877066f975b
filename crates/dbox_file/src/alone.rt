// A message's header, and its block of metadata, each by itself.
ghost use Rattle.std.specs.Prelude.{◌≡◌, ℕ, List, length, IfSome, IfNone};
ghost use Rattle.model_storage.specs.StorageFile.{Line, AreLines, IsBlock, IsMessageHeader};

use crate::message::{TRAILER, behind_block, message_header};

/// The size of the body that a message's header tells. None where the octets aren't one.
pub fn header_size(header: &[u8]) -> Option<u32>
    requires { length header.now ≡ 30 }
    ensures some { IfSome result (λ size. IsMessageHeader header.now size) }
    ensures none { IfNone result ((size : ℕ) → IsMessageHeader header.now size → ⊥) }
{
    match message_header(header) {
        Ok((size, _)) => Some(size as u32),
        Err(_) => None,
    }
}

/// The metadata lines of a message's block. None where the octets aren't one.
pub fn lines_in(block: &[u8]) -> Option<&[u8]>
    ensures some { IfSome result (λ text. (lines : List Line) × IsBlock block.now lines × AreLines text.now lines) }
    ensures none { IfNone result ((lines : List Line) → IsBlock block.now lines → ⊥) }
{
    match behind_block(block) {
        Ok(rest) if rest.is_empty() => Some(&block[TRAILER.len()..block.len() - 1]),
        _ => None,
    }
}
