// Parts cut out of a message.
ghost use Rattle.std.specs.Prelude.{◌≡◌, ◌≤◌, ◌+◌, ℕ, List, All, length, map, filter, IfOk};
ghost use Rattle.model_mime.specs.Lines.{range};
ghost use Rattle.model_mime.specs.Parts.{InOrder};
ghost use Rattle.model_attach.specs.Detached.{AreCut, IsInstance};
ghost use Rattle.attach_detach.specs.Prepared.{piece_of, HasHash, IsPieceOf};

use crate::message::Detached;
use b64_lines::recognise;
use mdbox_base::{Hash, LineForm, NoMemory, Octets, Seq};
use model_mime::{Coding, Part};
use sha1::Sha1;
use std::alloc::Global;

/// The detachable parts of a message, in order, and the body that is left without them.
pub fn cut(
    alloc: Global,
    message: &[u8],
    leaves: &[Part],
) -> Result<(Octets, Seq<Detached>), NoMemory>
    requires { InOrder 0 (length message.now) (filter (λ part. part.detachable) leaves.now) }
    ensures cut { IfOk result (λ found. AreCut message.now 0 (filter (λ part. part.detachable) leaves.now) (map piece_of found.1) found.0) }
    ensures hashes { IfOk result (λ found. All HasHash found.1) }
{
    let mut body = Vec::new(alloc);
    let mut parts = Vec::new(alloc);
    let mut at = 0;
    for leaf in leaves {
        if !leaf.detachable {
            continue;
        }
        body.extend_from_slice(between(message, at, leaf.start as usize))?;
        parts.push(detached(alloc, message, *leaf)?)?;
        at = leaf.end as usize;
    }
    body.extend_from_slice(between(message, at, message.len()))?;
    Ok((Octets::of(body), Seq::of(parts)))
}

/// What stands in a message from one place to another.
fn between(message: &[u8], start: usize, end: usize) -> &[u8]
    requires { (start ≤ end) × (end ≤ length message.now) }
    ensures { result.now ≡ range message.now start end }
{
    &message[start..end]
}

/// A part of a message as a piece.
fn detached(alloc: Global, message: &[u8], part: Part) -> Result<Detached, NoMemory>
    requires { (part.start ≤ part.end) × (part.end ≤ length message.now) }
    ensures { IfOk result (λ found. IsPieceOf message.now part found) }
{
    let text = between(message, part.start as usize, part.end as usize);
    let (form, octets) = instance(alloc, part.coding, text)?;
    let hash = Hash(Sha1::digest(octets.as_slice()));
    Ok(Detached {
        start: part.start,
        count: part.end - part.start,
        form,
        hash,
        octets,
    })
}

/// The instance of a part's text, and the form where that is canonical base64.
fn instance(
    alloc: Global,
    coding: Coding,
    text: &[u8],
) -> Result<(Option<LineForm>, Octets), NoMemory>
    ensures { IfOk result (λ found. IsInstance coding text.now found.0 found.1) }
{
    if coding == Coding::Base64 {
        if let Some((form, octets)) = recognise(alloc, text)? {
            return Ok((Some(form), octets));
        }
    }
    let mut octets = Octets::empty(alloc);
    octets.push_all(text)?;
    Ok((None, octets))
}
