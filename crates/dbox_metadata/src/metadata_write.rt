// Metadata lines, written.
ghost use Rattle.std.specs.Prelude.{◌≡◌, ◌++◌, ℕ, List, Option, flat_map, OnOk, OnErr};
ghost use Rattle.hex.specs.Hex.{encode_lower};
ghost use Rattle.mdbox_base.specs.Numbers.{hex_text};
ghost use Rattle.model_storage.specs.StorageFile.{line_text};
ghost use Rattle.model_storage.specs.Metadata.{metadata_text, optional_line, references_line};
ghost use Rattle.dbox_metadata.specs.Keys.{octet_of_key};
ghost use Rattle.dbox_metadata.specs.MetadataRead.{IsSaidByText};

use crate::key::Key;
use crate::refs_write::{push_digits, push_each};
use mdbox_base::{ExtRef, Guid, Name, NoMemory, Octets, push_hex};
use model_storage::Metadata;
use std::alloc::Global;

/// Appends the metadata lines of a message in the written order: `R`, `Z`, `V`, `G`, `B`, `X`, and then the unknown
/// lines as they are. Without memory nothing is appended.
pub fn push_metadata(alloc: Global, out: &mut Octets, meta: &Metadata) -> Result<(), NoMemory>
    requires { IsSaidByText meta.now }
    ensures ok { OnOk result (out.new ≡ out.old ++ metadata_text meta.now) }
    ensures err { OnErr result (out.new ≡ out.old) }
{
    let mut text = Octets::empty(alloc);
    push_number_line(&mut text, Key::Received, meta.received)?;
    push_number_line(&mut text, Key::PhysicalSize, meta.physical)?;
    push_number_line(&mut text, Key::VirtualSize, meta.virtual_size)?;
    push_guid_line(alloc, &mut text, meta.guid)?;
    push_origin_line(&mut text, &meta.origin)?;
    push_refs_line(alloc, &mut text, meta.refs.as_slice())?;
    text.push_all(meta.unknown.as_slice())?;
    out.push_all(text.as_slice())
}

fn push_number_line(out: &mut Octets, key: Key, value: Option<u64>) -> Result<(), NoMemory>
    ensures { OnOk result (out.new ≡ out.old ++ flat_map line_text (optional_line (octet_of_key key) hex_text value)) }
{
    let Some(value) = value else {
        return Ok(());
    };
    out.push_all(&[key.octet()])?;
    push_hex(out, value)?;
    out.push_all(b"\n")
}

fn push_guid_line(alloc: Global, out: &mut Octets, guid: Option<Guid>) -> Result<(), NoMemory>
    ensures { OnOk result (out.new ≡ out.old ++ flat_map line_text (optional_line 71 (λ guid. encode_lower guid.0) guid)) }
{
    let Some(guid) = guid else {
        return Ok(());
    };
    let Guid(octets) = guid;
    out.push_all(&[Key::Guid.octet()])?;
    push_digits(alloc, out, &octets)?;
    out.push_all(b"\n")
}

fn push_origin_line(out: &mut Octets, origin: &Option<Name>) -> Result<(), NoMemory>
    ensures { OnOk result (out.new ≡ out.old ++ flat_map line_text (optional_line 66 (λ name. name) origin.now)) }
{
    let Some(name) = origin else {
        return Ok(());
    };
    out.push_all(&[Key::Origin.octet()])?;
    out.push_all(name.as_octets())?;
    out.push_all(b"\n")
}

fn push_refs_line(alloc: Global, out: &mut Octets, refs: &[ExtRef]) -> Result<(), NoMemory>
    ensures { OnOk result (out.new ≡ out.old ++ flat_map line_text (references_line refs.now)) }
{
    if refs.is_empty() {
        return Ok(());
    }
    out.push_all(&[Key::References.octet()])?;
    push_each(alloc, out, refs)?;
    out.push_all(b"\n")
}
