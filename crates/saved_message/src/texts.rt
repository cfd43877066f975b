// The texts of which a region is made.
ghost use Rattle.std.specs.Prelude.{◌≡◌, ◌≤◌, ◌+◌, ◌++◌, ℕ, List, length, IfOk};
ghost use Rattle.model_storage.specs.StorageFile.{Line, AreLines};
ghost use Rattle.model_storage.specs.WrittenFile.{written_message};

use dbox_file::{message_header, metadata_block, push_message};
use mdbox_base::{NoMemory, Octets};
use std::alloc::Global;

/// How many octets a region may have that is one text.
const ONE_TEXT: usize = 65_536;

/// A region in three texts, which stand one behind another: what is before the body, the body, what is behind it.
#[derive(Drop)]
pub struct Texts {
    pub front: Vec<u8>,
    pub body: Octets,
    pub back: Vec<u8>,
}

/// The region of a message with this body and these metadata lines. A short one is in the last text alone, so that it is
/// written at once; else the body is not copied.
pub fn texts_of(alloc: Global, body: Octets, lines: &[u8]) -> Result<Texts, NoMemory>
    requires body { length body ≤ 4294967295 }
    requires lines { (rows : List Line) × AreLines lines.now rows }
    requires block { length lines.now + 5 ≤ 1048576 }
    ensures region { IfOk result (λ texts. (rows : List Line) → AreLines lines.now rows → (texts.front.items ++ texts.body) ++ texts.back.items ≡ written_message (record { body = body; lines = rows })) }
    ensures before { IfOk result (λ texts. length texts.front.items + length texts.body ≤ 30 + length body) }
{
    if body.length() + lines.len() <= ONE_TEXT {
        return whole(alloc, body.as_slice(), lines);
    }
    let mut front = Vec::new(alloc);
    front.extend_from_slice(&message_header(body.length()))?;
    let back = metadata_block(alloc, lines)?;
    Ok(Texts { front, body, back })
}

/// The region as one text.
fn whole(alloc: Global, body: &[u8], lines: &[u8]) -> Result<Texts, NoMemory>
    requires body { length body.now ≤ 4294967295 }
    requires lines { (rows : List Line) × AreLines lines.now rows }
    requires block { length lines.now + 5 ≤ 1048576 }
    ensures region { IfOk result (λ texts. (rows : List Line) → AreLines lines.now rows → (texts.front.items ++ texts.body) ++ texts.back.items ≡ written_message (record { body = body.now; lines = rows })) }
    ensures before { IfOk result (λ texts. length texts.front.items + length texts.body ≤ 30 + length body.now) }
{
    let mut region = Octets::empty(alloc);
    push_message(alloc, &mut region, body, lines)?;
    Ok(Texts {
        front: Vec::new(alloc),
        body: Octets::empty(alloc),
        back: region.into_vec(),
    })
}
