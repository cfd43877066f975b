// What the lines before a place say.
ghost use Rattle.std.specs.Prelude.{◌≡◌, ◌⊎◌, ◌++◌, [], false, ℕ, Some, None, IsTrue, IsSome, IfOk, IfSome, IfNone, OnOk};
ghost use Rattle.model_storage.specs.StorageFile.{IsLine, line_text};
ghost use Rattle.model_storage.specs.Metadata.{IsNumberText, IsGuidText, is_known_key};
ghost use Rattle.mdbox_base.specs.declared.ids.Guid.{Guid};
ghost use Rattle.dbox_metadata.specs.SoFar.{HasTaken, TakesNext, meta_line};

use crate::key::Key;
use crate::refs_read::read_refs;
use hex::FromHex;
use mdbox_base::{Guid, NoMemory, Octets, Seq, name_of, read_hex};
use model_storage::Metadata;
use std::alloc::Global;

/// What the lines so far say, and which keys stood there whose value may be unknown.
#[derive(Drop)]
pub struct Reader {
    pub meta: Metadata,
    pub guid_seen: bool,
    pub origin_seen: bool,
}

impl Reader {
    /// A reader that has taken no line.
    pub fn new(alloc: Global) -> Reader
        ensures { HasTaken [] result }
    {
        Reader {
            meta: Metadata {
                guid: None,
                received: None,
                physical: None,
                virtual_size: None,
                origin: None,
                refs: Seq::empty(alloc),
                unknown: Octets::empty(alloc),
            },
            guid_seen: false,
            origin_seen: false,
        }
    }

    /// Takes the next line, where it may follow those before it. Else it is a bad line, and the answer is no.
    pub fn take(&mut self, alloc: Global, key: u8, value: &[u8]) -> Result<bool, NoMemory>
        requires { IsLine (meta_line key value.now) }
        ensures { IfOk result (TakesNext self.old (meta_line key value.now) self.new) }
    {
        match Key::of(key) {
            Some(Key::Received) => Ok(set_number(&mut self.meta.received, value)),
            Some(Key::PhysicalSize) => Ok(set_number(&mut self.meta.physical, value)),
            Some(Key::VirtualSize) => Ok(set_number(&mut self.meta.virtual_size, value)),
            Some(Key::Guid) => self.take_guid(value),
            Some(Key::Origin) => self.take_origin(alloc, value),
            Some(Key::References) => self.take_refs(alloc, value),
            None => self.take_unknown(key, value),
        }
    }

    fn take_guid(&mut self, value: &[u8]) -> Result<bool, NoMemory>
        requires { IsLine (meta_line 71 value.now) }
        ensures { IfOk result (TakesNext self.old (meta_line 71 value.now) self.new) }
    {
        if self.guid_seen {
            return Ok(false);
        }
        self.guid_seen = true;
        self.meta.guid = guid_of(value);
        if self.meta.guid.is_none() {
            push_line(&mut self.meta.unknown, b'G', value)?;
        }
        Ok(true)
    }

    fn take_origin(&mut self, alloc: Global, value: &[u8]) -> Result<bool, NoMemory>
        requires { IsLine (meta_line 66 value.now) }
        ensures { IfOk result (TakesNext self.old (meta_line 66 value.now) self.new) }
    {
        if self.origin_seen {
            return Ok(false);
        }
        self.origin_seen = true;
        self.meta.origin = name_of(alloc, value)?;
        if self.meta.origin.is_none() {
            push_line(&mut self.meta.unknown, b'B', value)?;
        }
        Ok(true)
    }

    fn take_refs(&mut self, alloc: Global, value: &[u8]) -> Result<bool, NoMemory>
        requires { IsLine (meta_line 88 value.now) }
        ensures { IfOk result (TakesNext self.old (meta_line 88 value.now) self.new) }
    {
        if self.meta.refs.length() > 0 {
            return Ok(false);
        }
        let Some(refs) = read_refs(alloc, value)? else {
            return Ok(false);
        };
        self.meta.refs = refs;
        Ok(true)
    }

    fn take_unknown(&mut self, key: u8, value: &[u8]) -> Result<bool, NoMemory>
        requires line { IsLine (meta_line key value.now) }
        requires unknown { is_known_key key ≡ false }
        ensures { IfOk result (TakesNext self.old (meta_line key value.now) self.new) }
    {
        push_line(&mut self.meta.unknown, key, value)?;
        Ok(true)
    }
}

/// Sets a number that isn't there yet to that of its text. No where it is there or the text is no number.
pub fn set_number(number: &mut Option<u64>, text: &[u8]) -> bool
    ensures yes { IsTrue result → (number.old ≡ None) × ((n : ℕ) × IsNumberText text.now n × (number.new ≡ Some n)) }
    ensures no { result ≡ false → IsSome number.old ⊎ ((n : ℕ) → IsNumberText text.now n → ⊥) }
{
    if number.is_some() {
        return false;
    }
    *number = read_hex(text);
    number.is_some()
}

/// The GUID of 32 hexadecimal digits of either case.
pub fn guid_of(text: &[u8]) -> Option<Guid>
    ensures some { IfSome result (IsGuidText text.now) }
    ensures none { IfNone result ((guid : Guid) → IsGuidText text.now guid → ⊥) }
{
    let octets = <[u8; 16]>::from_hex(text).ok()?;
    Some(Guid(octets))
}

/// Appends a line. Without memory a part of it may be there.
fn push_line(out: &mut Octets, key: u8, value: &[u8]) -> Result<(), NoMemory>
    ensures { OnOk result (out.new ≡ out.old ++ line_text (meta_line key value.now)) }
{
    out.push_all(&[key])?;
    out.push_all(value)?;
    out.push_all(b"\n")
}
