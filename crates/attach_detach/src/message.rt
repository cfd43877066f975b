// A message as it is stored.
ghost use Rattle.std.specs.Prelude.{◌≡◌, ◌≤◌, [], length, IfOk};
ghost use Rattle.std.specs.List.{list_any};
ghost use Rattle.model_mime.specs.Parts.{parts_in};
ghost use Rattle.attach_detach.specs.Prepared.{IsPrepared, IsPlain, IsTakenApart};

use crate::cut::cut;
use crate::size::bare_breaks;
use mdbox_base::{Hash, LineForm, NoMemory, Octets, Seq};
use mime_parts::leaf_parts;
use model_mime::Part;
use std::alloc::Global;

/// A detached attachment: the range of the message that its text fills, the form of that text (None where it is the
/// instance itself), and the octets of its instance with their SHA-1.
#[derive(Drop)]
pub struct Detached {
    pub start: u32,
    pub count: u32,
    pub form: Option<LineForm>,
    pub hash: Hash,
    pub octets: Octets,
}

/// A message that is ready to be stored: the body without the detached parts, these in order, and the size of the whole
/// message, as it is and with each bare LF counted as two octets.
#[derive(Drop)]
pub struct Prepared {
    pub body: Octets,
    pub parts: Seq<Detached>,
    pub whole: u32,
    pub virtual_size: u32,
}

/// Takes every detachable part out of a message.
pub fn prepare(alloc: Global, message: &[u8]) -> Result<Prepared, NoMemory>
    requires { length message.now ≤ 67108864 }
    ensures { IfOk result (λ prepared. IsPrepared message.now prepared) }
{
    let leaves = leaf_parts(alloc, message)?;
    cut_out(alloc, message, leaves.as_slice())
}

/// Takes every detachable part out of a message, or answers None where it has none: then it is stored as it is.
pub fn take_apart(alloc: Global, message: &[u8]) -> Result<Option<Prepared>, NoMemory>
    requires { length message.now ≤ 67108864 }
    ensures { IfOk result (IsTakenApart message.now) }
{
    let leaves = leaf_parts(alloc, message)?;
    if has_detachable(leaves.as_slice()) {
        return Ok(Some(cut_out(alloc, message, leaves.as_slice())?));
    }
    Ok(None)
}

/// Whether one of these leaves can be detached.
fn has_detachable(leaves: &[Part]) -> bool
    ensures { result ≡ list_any (λ part. part.detachable) leaves.now }
{
    leaves.iter().any(|leaf| leaf.detachable)
}

/// A message without those of its leaves that can be detached.
fn cut_out(alloc: Global, message: &[u8], leaves: &[Part]) -> Result<Prepared, NoMemory>
    requires short { length message.now ≤ 67108864 }
    requires leaves { leaves.now ≡ parts_in message.now }
    ensures { IfOk result (λ prepared. IsPrepared message.now prepared) }
{
    let (body, parts) = cut(alloc, message, leaves)?;
    let whole = message.len() as u32;
    let virtual_size = whole + bare_breaks(message);
    Ok(Prepared {
        body,
        parts,
        whole,
        virtual_size,
    })
}

/// A message of which nothing is taken out. Takes no memory.
pub fn plain(message: Octets) -> Prepared
    requires { length message ≤ 67108864 }
    ensures { IsPlain message result }
{
    let items = message.into_vec();
    let alloc = *items.allocator();
    let whole = items.len() as u32;
    let virtual_size = whole + bare_breaks(items.as_slice());
    Prepared {
        body: Octets::of(items),
        parts: Seq::empty(alloc),
        whole,
        virtual_size,
    }
}
