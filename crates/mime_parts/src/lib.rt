//! The leaf parts of a message, found in one pass over its lines.
#![tactic(auto)]

mod mark;
mod reader;

ghost use Rattle.std.specs.Prelude.{◌≡◌, ◌≤◌, length, IfOk};
ghost use Rattle.model_mime.specs.Parts.{parts_in};

use mdbox_base::{NoMemory, Seq};
use model_mime::Part;
use reader::Reader;
use std::alloc::Global;

/// The leaf parts of a message in their order, none where it has more than 64 levels or 10,000 leaves.
pub fn leaf_parts(alloc: Global, message: &[u8]) -> Result<Seq<Part>, NoMemory>
    requires { length message.now ≤ 67108864 }
    ensures { IfOk result (λ parts. parts ≡ parts_in message.now) }
{
    let mut reader = Reader::new(alloc, message);
    let mut at = 0;
    while let Some(line) = reader.next_line(message, at) {
        if !reader.take_line(message, line)? {
            return Ok(Seq::empty(alloc));
        }
        at = line.next;
    }
    if !reader.end_open(message, message.len())? {
        return Ok(Seq::empty(alloc));
    }
    Ok(reader.into_parts())
}
