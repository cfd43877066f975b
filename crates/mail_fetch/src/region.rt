// A message that is read piece by piece: its region, and behind it each instance.
ghost use Rattle.std.specs.Prelude.{◌≡◌, ◌≢◌, ◌≤◌, ◌<◌, ◌↔◌, [], length, ℕ, List, All, IsTrue, IfOk, IsErr, OnOk};
ghost use Rattle.disk_model.specs.Disk.{IfTold, IsIdle};
ghost use Rattle.disk_model.specs.FaultCounts.{NoFault, ReadFaultCounted};
ghost use Rattle.mail_fetch.specs.Events.{next_piece, with_piece};
ghost use Rattle.mail_fetch.specs.Held.{HoldsPart, IsUnknown, octets_held};
ghost use Rattle.mail_fetch.specs.Parts.{KnowsSource, octets_to_read, pieces_left};
ghost use Rattle.mail_fetch.specs.Region.{unread, IsReplyFor};
ghost use Rattle.mail_fetch.specs.Task.{most_pieces};

use crate::held::{Held, settled_if, with_piece};
use crate::message::{HEADER, message_of};
use crate::parts::{PIECE, Part, StoredAt, octets_to_read, parts_to_read, pass_piece, read_first};
use disk_model::Disk;
use mdbox_base::{NoMemory, Octets, Refusal, Reply};
use std::alloc::Global;
use std::marker::Model;
use std::mem;
use storage_files::DiskFault;
use store_core::Store;

/// How many octets of metadata a message has at the most.
const METADATA: usize = 1_048_576;

/// A message, as far as it was read.
#[derive(Drop)]
pub struct Region {
    from: StoredAt,
    /// The first octets that were read: the message's header.
    head: Vec<u8>,
    /// What was read behind it.
    held: Held,
    /// How many octets are to be read.
    total: usize,
    /// What is read, of which the parts before `next` are done.
    parts: Vec<Part>,
    next: usize,
    /// What a piece is read into.
    block: Vec<u8>,
}

impl Model for Region {
    ghost use Rattle.std.specs.Prelude.{◌≡◌, ◌≢◌, ◌++◌, [], drop, length, sum_by};
    ghost use Rattle.mail_fetch.specs.Held.{HoldsPart, IsUnknown, octets_of_instances, octets_held};
    ghost use Rattle.mail_fetch.specs.Region.{RegionValue};
    ghost use Rattle.mail_fetch.specs.Room.{IsPartlyRead};

    ghost Value = { RegionValue };

    ghost view = { λ region. record { from = region.from; octets = region.head.items ++ octets_held region.from.instances region.held; left = drop region.next region.parts.items } };

    ghost invariant = { λ region. IsPartlyRead region.from region.total region.head (region.head.items ++ octets_held region.from.instances region.held) (drop region.next region.parts.items) × HoldsPart region.from region.head.items (sum_by (λ part. part.size) (drop region.next region.parts.items)) region.held × (IsUnknown region.held → region.from.instances ≢ [] → (region.next ≡ 0) × (sum_by (λ part. part.size) (drop 1 region.parts.items) ≡ octets_of_instances region.from)) × (length region.block.items ≡ 65536) };
}

impl Region {
    /// A message of which nothing is read, with the memory for its octets.
    pub fn of(alloc: Global, from: StoredAt) -> Result<Region, NoMemory>
        ensures unread { IfOk result (λ region. region ≡ unread from) }
        ensures pieces { IfOk result (λ region. length from.instances ≤ 65535 → pieces_left region.left ≤ most_pieces) }
    {
        let total = octets_to_read(&from).ok_or(NoMemory)?;
        let parts = parts_to_read(alloc, &from)?;
        Ok(Region {
            head: Vec::with_capacity(alloc, HEADER)?,
            held: nothing_held(alloc, &from, total)?,
            total,
            parts,
            next: 0,
            block: vec![in alloc; 0; PIECE as usize]?,
            from,
        })
    }

    /// Whether no piece is left.
    pub fn is_read(&self) -> bool
        ensures { IsTrue result ↔ (pieces_left self.now.left ≡ 0) }
    {
        self.next >= self.parts.len()
    }

    /// Reads the next piece, behind those that were read. It takes no memory.
    pub fn read_next<D: Disk>(&mut self, store: &mut Store<D>) -> Result<(), DiskFault>
        requires left { 0 < pieces_left self.old.left }
        requires known { All (λ part. KnowsSource store.old.instances.known part.source) self.old.left }
        ensures piece { OnOk result ((piece : List ℕ) × IfTold (D.history store.old.disk) (λ disk. piece ≡ next_piece self.old disk) × (self.new ≡ with_piece self.old piece)) }
        ensures from { self.new.from ≡ self.old.from }
        ensures same { store.new ≡ record store.old { disk = store.new.disk } }
        ensures idle { IsIdle (D.history store.old.disk) (D.history store.new.disk) }
        ensures fault { ReadFaultCounted (IsErr result) (D.faults store.old.disk) (D.faults store.new.disk) }
        ensures unfailed { OnOk result (NoFault (D.faults store.old.disk) (D.faults store.new.disk)) }
    {
        let part = self.parts[self.next];
        let count = read_first(store, part, &mut self.block)?;
        let nothing = Held::Damaged {
            octets: Vec::new(store.alloc()),
        };
        let held = mem::replace(&mut self.held, nothing);
        let held = with_piece(&self.from, &mut self.head, held, &self.block[..count]);
        self.next = pass_piece(&mut self.parts, self.next);
        self.held = settled_if(self.next > 0, &self.from, &self.head, held);
        Ok(())
    }

    /// Where the message is stored.
    pub fn from(&self) -> &StoredAt
        ensures { result.now ≡ self.now.from }
    {
        &self.from
    }

    /// The same, of a message that is read no further.
    pub fn into_from(self) -> StoredAt
        ensures { result ≡ self.from }
    {
        self.from
    }

    /// The reply for what was read, and where it is stored: the octets of the message, or that it is damaged. A message without
    /// attachments is replied where its body lies, so no second copy of it is made.
    pub fn into_reply(self) -> (StoredAt, Reply)
        ensures from { result.0 ≡ self.from }
        ensures reply { IsReplyFor self.from self.octets result.1 }
    {
        let Region {
            from,
            head,
            held,
            total,
            parts: _,
            next: _,
            block,
        } = self;
        let mut block = block;
        let reply = match message_of(&from, &head, held, total, &mut block) {
            Some(octets) => Reply::Fetched(Octets::of(octets)),
            None => Reply::Refused(Refusal::Damaged {
                file: from.file,
                offset: u64::from(from.offset),
            }),
        };
        (from, reply)
    }
}

/// Nothing that was read, with room for all octets that come.
fn nothing_held(alloc: Global, from: &StoredAt, total: usize) -> Result<Held, NoMemory>
    requires { total ≡ octets_to_read from.now }
    ensures none { IfOk result (λ held. octets_held from.now.instances held ≡ []) }
    ensures held { IfOk result (λ held. (left : ℕ) → HoldsPart from.now [] left held) }
    ensures long { IfOk result (λ held. IsUnknown held → from.now.instances ≢ [] → 30 ≤ from.now.size) }
{
    let count = from.instances.length();
    let size = from.size as usize;
    if count == 0 {
        return Ok(Held::AsRead {
            octets: Vec::with_capacity(alloc, total)?,
            refs: Vec::with_capacity(alloc, 0)?,
            tail: Vec::with_capacity(alloc, 0)?,
        });
    }
    let octets = Vec::with_capacity(alloc, total.max(from.listed as usize))?;
    if size < HEADER {
        return Ok(Held::Damaged { octets });
    }
    Ok(Held::AsRead {
        octets,
        refs: Vec::with_capacity(alloc, count)?,
        tail: Vec::with_capacity(alloc, METADATA.min(size))?,
    })
}
