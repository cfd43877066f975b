// Laying out the region of a message.
ghost use Rattle.std.specs.Prelude.{◌≡◌, ◌≤◌, ℕ, List, length, map, flat_map, IfOk};
ghost use Rattle.attach_detach.specs.Prepared.{IsPrepared};
ghost use Rattle.mdbox_base.specs.Words.{IsName};
ghost use Rattle.model_storage.specs.Metadata.{metadata_text};
ghost use Rattle.model_storage.specs.References.{reference_text};
ghost use Rattle.model_storage.specs.StorageFile.{line_text};
ghost use Rattle.dbox_metadata.specs.MadeMetadata.{IsMadeMetadata};
ghost use Rattle.saved_message.specs.Laid.{IsLaid, lines_of_numbers};
ghost use Rattle.saved_message.specs.Layout.{FitsLayout, metadata_of_numbers, metadata_of_names};
ghost use Rattle.saved_message.specs.Region.{reference_to, references_naming, unknown_guid, unknown_id, unknown_ids, written_metadata};

use crate::laid::Laid;
use crate::texts::texts_of;
use attach_detach::{Detached, Prepared};
use dbox_metadata::{made_metadata_is_said, push_metadata, push_refs};
use mdbox_base::{ExtRef, Guid, InstId, Name, NoMemory, Octets, Seq, name_of};
use model_storage::Metadata;
use std::alloc::Global;

/// Lays out the region of a message, received at this time (Unix seconds), before its GUID and the ids of its attachments'
/// instances are known: their digits are zeros. Its attachments are given back.
pub fn lay_out(
    alloc: Global,
    name: &Name,
    time: u64,
    prepared: Prepared,
) -> Result<(Laid, Seq<Detached>), NoMemory>
    requires { (message : List ℕ) × (length message ≤ 67108864) × IsPrepared message prepared }
    ensures laid { IfOk result (λ made. IsLaid name.now time prepared (unknown_ids prepared.parts) unknown_guid made.0) }
    ensures parts { IfOk result (λ made. made.1 ≡ prepared.parts) }
{
    made_metadata_is_said();
    let name_size = name.as_octets().len();
    let (lines, before) = push_lines(alloc, name, time, &prepared)?;
    let sizes = sizes_of(alloc, prepared.parts.as_slice())?;
    let Prepared {
        body,
        parts,
        whole: _whole,
        virtual_size: _virtual_size,
    } = prepared;
    let body_size = body.length();
    let texts = texts_of(alloc, body, lines.as_slice())?;
    Ok((Laid::of(texts, body_size, before, name_size, sizes), parts))
}

/// The metadata lines of a message, and how many octets those before the GUID's have.
fn push_lines(
    alloc: Global,
    name: &Name,
    time: u64,
    prepared: &Prepared,
) -> Result<(Octets, usize), NoMemory>
    requires { FitsLayout prepared.now }
    ensures text { IfOk result (λ lines. lines.0 ≡ metadata_text (written_metadata name.now time prepared.now (unknown_ids prepared.now.parts) unknown_guid)) }
    ensures before { IfOk result (λ lines. lines.1 ≡ length (flat_map line_text (lines_of_numbers time prepared.now))) }
{
    made_metadata_is_said();
    let numbers = numbers_of(alloc, time, prepared);
    let names = names_of(alloc, name.as_octets(), prepared.parts.as_slice())?;
    let mut lines = Octets::empty(alloc);
    push_metadata(alloc, &mut lines, &numbers)?;
    let before = lines.length();
    push_metadata(alloc, &mut lines, &names)?;
    Ok((lines, before))
}

/// The metadata of the lines before the GUID's.
fn numbers_of(alloc: Global, time: u64, prepared: &Prepared) -> Metadata
    ensures is { result ≡ metadata_of_numbers time prepared.now }
    ensures made { IsMadeMetadata result }
{
    let whole = u64::from(prepared.whole);
    let stored = prepared.body.length() as u64;
    Metadata {
        guid: None,
        received: Some(time),
        physical: if whole == stored { None } else { Some(whole) },
        virtual_size: Some(u64::from(prepared.virtual_size)),
        origin: None,
        refs: Seq::empty(alloc),
        unknown: Octets::empty(alloc),
    }
}

/// The metadata of the GUID's line and those behind it, before GUID and ids are known.
fn names_of(alloc: Global, name: &[u8], parts: &[Detached]) -> Result<Metadata, NoMemory>
    requires { IsName name.now }
    ensures { IfOk result (λ meta. meta ≡ metadata_of_names name.now parts.now (unknown_ids parts.now) unknown_guid) }
{
    let Some(origin) = name_of(alloc, name)? else {
        unreachable!()
    };
    Ok(Metadata {
        guid: Some(Guid([0; 16])),
        received: None,
        physical: None,
        virtual_size: None,
        origin: Some(origin),
        refs: references_of(alloc, parts)?,
        unknown: Octets::empty(alloc),
    })
}

/// The references to detached attachments, before the ids of their instances are known.
fn references_of(alloc: Global, parts: &[Detached]) -> Result<Seq<ExtRef>, NoMemory>
    ensures { IfOk result (λ refs. refs ≡ references_naming parts.now (unknown_ids parts.now)) }
{
    let mut refs = Vec::new(alloc);
    for part in parts {
        refs.push(reference_of(part))?;
    }
    Ok(Seq::of(refs))
}

fn reference_of(part: &Detached) -> ExtRef
    ensures { result ≡ reference_to part.now unknown_id }
{
    ExtRef {
        start: part.start,
        count: part.count,
        form: part.form,
        hash: part.hash,
        id: InstId([0; 16]),
    }
}

/// How many octets the reference to each detached attachment has.
fn sizes_of(alloc: Global, parts: &[Detached]) -> Result<Vec<usize>, NoMemory>
    ensures { IfOk result (λ sizes. sizes.items ≡ map (λ d. length (reference_text (reference_to d unknown_id))) parts.now) }
{
    let mut sizes = Vec::new(alloc);
    for part in parts {
        sizes.push(size_of(alloc, reference_of(part))?)?;
    }
    Ok(sizes)
}

/// How many octets a reference has.
fn size_of(alloc: Global, reference: ExtRef) -> Result<usize, NoMemory>
    ensures { IfOk result (λ size. size ≡ length (reference_text reference)) }
{
    let mut one = Seq::empty(alloc);
    one.push(reference)?;
    let mut text = Octets::empty(alloc);
    push_refs(alloc, &mut text, &one)?;
    Ok(text.length())
}
