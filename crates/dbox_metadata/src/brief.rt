// What metadata lines tell of where a message is kept, read without memory.
ghost use Rattle.std.specs.Prelude.{◌≡◌, ◌≤◌, [], length, not, true, vec_capacity, IfSome, IfNone};
ghost use Rattle.model_storage.specs.StorageFile.{IsLine};
ghost use Rattle.model_storage.specs.Metadata.{IsMetadataText};
ghost use Rattle.model_storage.specs.declared.metadata_value.Metadata.{Metadata};
ghost use Rattle.dbox_metadata.specs.BriefRead.{HasTakenBriefly, TakesBriefly, IsBriefOf};
ghost use Rattle.dbox_metadata.specs.SoFar.{meta_line};

use crate::key::Key;
use crate::metadata_read::next_line;
use crate::reader::{guid_of, set_number};
use crate::refs_read::fill_refs;
use mdbox_base::{ExtRef, Guid};

/// What metadata lines tell of where a message is kept.
#[derive(Drop)]
pub struct Brief {
    pub guid: Option<Guid>,
    /// The size of the whole message, where it isn't that of the stored body.
    pub physical: Option<u64>,
    pub refs: Vec<ExtRef>,
}

/// What the lines so far say, but for names and unknown lines, and which keys stood there whose value may be unknown.
#[derive(Drop)]
struct BriefReader {
    received: Option<u64>,
    physical: Option<u64>,
    virtual_size: Option<u64>,
    guid: Option<Guid>,
    guid_seen: bool,
    origin_seen: bool,
    refs: Vec<ExtRef>,
}

/// What the metadata lines of a message tell in brief, with the references in `refs`. None if and only if they are no metadata,
/// or have more references than `refs` has room for. It takes no memory.
pub fn read_brief(lines: &[u8], refs: Vec<ExtRef>) -> Option<Brief>
    requires empty { refs.items ≡ [] }
    ensures some { IfSome result (IsBriefOf lines.now) }
    ensures none { IfNone result ((meta : Metadata) → IsMetadataText lines.now meta → length meta.refs ≤ vec_capacity refs → ⊥) }
{
    let mut reader = BriefReader::new(refs);
    let mut rest = lines;
    while !rest.is_empty() {
        let (key, value, behind) = next_line(rest)?;
        if !reader.take(key, value) {
            return None;
        }
        rest = behind;
    }
    Some(Brief {
        guid: reader.guid,
        physical: reader.physical,
        refs: reader.refs,
    })
}

impl BriefReader {
    /// A reader that has taken no line, with this room for references.
    fn new(refs: Vec<ExtRef>) -> BriefReader
        requires { refs.items ≡ [] }
        ensures taken { HasTakenBriefly [] result }
        ensures room { vec_capacity refs ≤ vec_capacity result.refs }
    {
        BriefReader {
            received: None,
            physical: None,
            virtual_size: None,
            guid: None,
            guid_seen: false,
            origin_seen: false,
            refs,
        }
    }

    /// Takes the next line, where it may follow those before it and there is room for its references. Else the answer is no.
    fn take(&mut self, key: u8, value: &[u8]) -> bool
        requires { IsLine (meta_line key value.now) }
        ensures takes { TakesBriefly self.old (meta_line key value.now) self.new result }
        ensures room { vec_capacity self.old.refs ≤ vec_capacity self.new.refs }
    {
        match Key::of(key) {
            Some(Key::Received) => set_number(&mut self.received, value),
            Some(Key::PhysicalSize) => set_number(&mut self.physical, value),
            Some(Key::VirtualSize) => set_number(&mut self.virtual_size, value),
            Some(Key::Guid) => self.take_guid(value),
            Some(Key::Origin) => self.take_origin(),
            Some(Key::References) => self.take_refs(value),
            None => true,
        }
    }

    /// Takes a line with a GUID, where none stood before.
    fn take_guid(&mut self, value: &[u8]) -> bool
        requires { IsLine (meta_line 71 value.now) }
        ensures takes { TakesBriefly self.old (meta_line 71 value.now) self.new result }
        ensures room { vec_capacity self.old.refs ≤ vec_capacity self.new.refs }
    {
        if self.guid_seen {
            return false;
        }
        self.guid_seen = true;
        self.guid = guid_of(value);
        true
    }

    /// Takes a line with a mailbox of origin, where none stood before.
    fn take_origin(&mut self) -> bool
        ensures first { result ≡ not self.old.origin_seen }
        ensures same { self.new ≡ record self.old { origin_seen = true } }
    {
        let first = !self.origin_seen;
        self.origin_seen = true;
        first
    }
    /// Takes a line with references, where none stood before and there is room for them.
    fn take_refs(&mut self, value: &[u8]) -> bool
        requires { IsLine (meta_line 88 value.now) }
        ensures takes { TakesBriefly self.old (meta_line 88 value.now) self.new result }
        ensures room { vec_capacity self.old.refs ≤ vec_capacity self.new.refs }
    {
        if !self.refs.is_empty() {
            return false;
        }
        fill_refs(&mut self.refs, value)
    }
}
