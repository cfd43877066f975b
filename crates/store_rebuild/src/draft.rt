// Entries of a log that is to be made.
ghost use Rattle.std.specs.Prelude.{◌≡◌, ◌≤◌, ◌<◌, ◌^◌, ◌+◌, ◌*◌, ◌++◌, ◌∷◌, [], ℕ, List, All, length, sum, IfOk};
ghost use Rattle.gate_log.specs.Log.{cut_by};
ghost use Rattle.model_logs.specs.Entries.{BoxInRange, MapInRange, RootInRange, box_text, map_text, root_text};

use gate_log::LogRoom;
use log_records::{
    box_entry_size, map_entry_size, push_box_entry, push_map_entry, push_root_entry,
};
use mdbox_base::{BoxEntry, MapEntry, NoMemory, Octets, RootEntry};
use std::alloc::Global;
use std::marker::Model;

/// How many octets a record has beside its entry.
const BESIDE: usize = 5;

/// The entries of a log that is to be made, as texts.
#[derive(Drop)]
pub struct Draft {
    /// One behind another.
    octets: Octets,
    /// The length of each.
    lengths: Vec<u32>,
}

impl Model for Draft {
    ghost use Rattle.std.specs.Prelude.{◌≡◌, ◌≤◌, ℕ, List, All, length, sum};
    ghost use Rattle.gate_log.specs.Log.{cut_by};

    ghost Value = { List (List ℕ) };

    ghost view = { λ draft. cut_by draft.lengths.items draft.octets };

    ghost invariant = { λ draft. (sum draft.lengths.items ≡ length draft.octets) × All (λ size. 1 ≤ size) draft.lengths.items };
}

/// A length in octets as a record tells it. No record has 4,294,967,296 octets or more.
fn in_record(octets: usize) -> Result<u32, NoMemory>
    ensures { IfOk result (λ length. length ≡ octets) }
{
    match u32::try_from(octets) {
        Ok(length) => Ok(length),
        Err(_) => Err(NoMemory),
    }
}

impl Draft {
    /// No entries.
    pub fn empty(alloc: Global) -> Draft
        ensures { result ≡ [] }
    {
        Draft {
            octets: Octets::empty(alloc),
            lengths: Vec::new(alloc),
        }
    }

    /// Adds an entry of a mailbox log.
    pub fn push_box(self, alloc: Global, entry: &BoxEntry) -> Result<Draft, NoMemory>
        requires { BoxInRange entry.now }
        ensures { IfOk result (λ draft. draft ≡ self ++ box_text entry.now ∷ []) }
    {
        let Draft {
            mut octets,
            mut lengths,
        } = self;
        let size = in_record(box_entry_size(entry))?;
        lengths.push(size)?;
        push_box_entry(alloc, &mut octets, entry)?;
        Ok(Draft { octets, lengths })
    }

    /// Adds an entry of the map log.
    pub fn push_map(self, alloc: Global, entry: &MapEntry) -> Result<Draft, NoMemory>
        requires { MapInRange entry.now }
        ensures { IfOk result (λ draft. draft ≡ self ++ map_text entry.now ∷ []) }
    {
        let Draft {
            mut octets,
            mut lengths,
        } = self;
        let size = in_record(map_entry_size(entry))?;
        lengths.push(size)?;
        push_map_entry(alloc, &mut octets, entry)?;
        Ok(Draft { octets, lengths })
    }

    /// Adds an entry of the root log.
    pub fn push_root(self, entry: &RootEntry) -> Result<Draft, NoMemory>
        requires { RootInRange entry.now }
        ensures { IfOk result (λ draft. draft ≡ self ++ root_text entry.now ∷ []) }
    {
        let Draft {
            mut octets,
            mut lengths,
        } = self;
        lengths.push(5)?;
        push_root_entry(&mut octets, entry)?;
        Ok(Draft { octets, lengths })
    }

    /// The log with these entries, and room to write them.
    pub fn with_room(self, alloc: Global) -> Result<NewLog, NoMemory>
        ensures { IfOk result (λ log. log ≡ self) }
    {
        let beside = self.lengths.len().saturating_mul(BESIDE);
        let octets = in_record(self.octets.length().saturating_add(beside))?;
        let room = LogRoom::of(alloc, octets)?;
        let Draft { octets, lengths } = self;
        Ok(NewLog {
            octets,
            lengths,
            room,
        })
    }
}

/// A log that is to be made: its entries as texts, and room to write them without memory.
#[derive(Drop)]
pub struct NewLog {
    pub octets: Octets,
    pub lengths: Vec<u32>,
    pub room: LogRoom,
}

impl Model for NewLog {
    ghost use Rattle.std.specs.Prelude.{◌≡◌, ◌≤◌, ◌+◌, ◌*◌, ℕ, List, All, length, sum};
    ghost use Rattle.gate_log.specs.Log.{cut_by};

    ghost Value = { List (List ℕ) };

    ghost view = { λ log. cut_by log.lengths.items log.octets };

    ghost invariant = { λ log. (sum log.lengths.items ≡ length log.octets) × All (λ size. 1 ≤ size) log.lengths.items × (length log.octets + 5 * length log.lengths.items ≤ log.room) };
}
