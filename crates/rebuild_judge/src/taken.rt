// What a rebuild keeps of the messages that it takes, and of the places that it skips.
ghost use Rattle.std.specs.Prelude.{◌≡◌, ◌++◌, ◌∷◌, [], List, IfOk, OnOk};
ghost use Rattle.disk_model.specs.Disk.{Files};
ghost use Rattle.model_meaning.specs.MapMeaning.{guid_file, is_own, number_at};
ghost use Rattle.model_taken.specs.Taken.{TakenMessage, taken_with, instances_taken};
ghost use Rattle.rebuild_judge.specs.Kept.{AreKept, CanBeKept, taken_row};

use crate::hashes::add_hashes;
use crate::mailboxes::{MetMailbox, add_one, inbox};
use mdbox_base::{FileNo, Guid, Hash, InstRow, Name, NoMemory, Seq, StoreId};
use model_found::Reason;
use std::alloc::Global;
use std::collections::BTreeMap;

/// A message that is taken: the region of its storage file, its GUID, when it was received (Unix seconds), how many octets the
/// whole message has, the name of the mailbox that it goes to, and the instances that it names.
#[derive(Drop)]
pub struct TakenRow {
    pub file: FileNo,
    pub offset: u32,
    pub size: u32,
    pub guid: Guid,
    pub time: u64,
    pub whole: u32,
    pub mailbox: Name,
    pub instances: Seq<InstRow>,
}

/// A place that is skipped: its storage file, its offset there in octets, and why.
#[derive(Clone, Copy, Debug, PartialEq, Eq)]
pub struct SkippedAt {
    pub file: FileNo,
    pub offset: u64,
    pub why: Reason,
}

/// What became of all that was found.
#[derive(Drop)]
pub struct Judged {
    pub taken: Seq<TakenRow>,
    pub skipped: Seq<SkippedAt>,
    /// The greatest number of a storage file that a GUID of this store names, 0 if none does.
    pub file: u32,
}

/// What becomes of a message.
#[derive(Drop)]
pub enum Outcome {
    Taken(TakenRow),
    /// It was taken from elsewhere.
    Known,
    Skipped(Reason),
}

/// The messages that are taken so far, with what the next ones are compared with.
#[derive(Drop)]
pub struct Keeping {
    pub taken: Seq<TakenRow>,
    /// The place of each GUID among them.
    pub by_guid: BTreeMap<[u8; 16], usize>,
    pub hashes: BTreeMap<[u8; 16], Hash>,
    pub mailboxes: Vec<MetMailbox>,
}

/// Nothing is taken yet.
pub fn nothing(alloc: Global) -> Result<Keeping, NoMemory>
    ensures { IfOk result (λ keeping. (files : Files) → AreKept files [] keeping) }
{
    let mut mailboxes = Vec::new(alloc);
    let name = inbox(alloc)?;
    mailboxes.push(MetMailbox { name, count: 0 })?;
    Ok(Keeping {
        taken: Seq::empty(alloc),
        by_guid: BTreeMap::new(alloc),
        hashes: BTreeMap::new(alloc),
        mailboxes,
    })
}

/// The storage file that a GUID of this store names, else 0.
pub fn file_named(store: StoreId, guid: Guid) -> u32
    ensures { result ≡ guid_file store.0 guid.0 }
{
    let number = third(&guid.0);
    if begins_with(store, &guid.0) && number != u32::MAX {
        number
    } else {
        0
    }
}

/// Whether a GUID begins with the store's id.
fn begins_with(store: StoreId, guid: &[u8; 16]) -> bool
    ensures { result ≡ is_own store.0 guid.now }
{
    guid[..8] == store.0[..]
}

/// The number that the four octets from place 8 on spell.
fn third(guid: &[u8; 16]) -> u32
    ensures { result ≡ number_at 8 guid.now }
{
    u32::from_be_bytes([guid[8], guid[9], guid[10], guid[11]])
}

impl Keeping {
    /// Adds a message with a GUID that none of those has.
    pub fn add(&mut self, alloc: Global, row: TakenRow) -> Result<(), NoMemory>
        ensures { OnOk result ((files : Files) (taken : List TakenMessage) (t : TakenMessage) → AreKept files taken self.old → CanBeKept files taken t → row ≡ taken_row t → AreKept files (taken ++ t ∷ []) self.new) }
    {
        add_one(alloc, &mut self.mailboxes, &row.mailbox)?;
        add_hashes(&mut self.hashes, row.instances.as_slice())?;
        self.by_guid.insert(row.guid.0, self.taken.length())?;
        self.taken.push(row)?;
        Ok(())
    }
}
