// Mailboxes that get another name.
ghost use Rattle.std.specs.Prelude.{◌≡◌, ◌↔◌, ◌<◌, ◌≤◌, ◌+◌, ◌++◌, ◌∷◌, [], ℕ, List, All, Some, IfOk, OnOk, OnErr, IsErr, IsErrOf, length, true, false};
ghost use Rattle.disk_model.specs.Disk.{Grows};
ghost use Rattle.disk_model.specs.FaultCounts.{NoFault, ChangeFaultCounted};
ghost use Rattle.mdbox_base.specs.Words.{IsName};
ghost use Rattle.mdbox_base.specs.declared.entries.MapEntry.TheVariants as map_entry;
ghost use Rattle.model_appends.specs.MapAppending.{lists_changed};
ghost use Rattle.model_kept.specs.Kept.{MailIsKept};
ghost use Rattle.model_lists.specs.Lists.{Lists};
ghost use Rattle.model_logs.specs.Entries.{map_text};
ghost use Rattle.model_meaning.specs.MapFits.{MapFits};
ghost use Rattle.model_meaning.specs.MapMeaning.{MapMeaning, map_applied};
ghost use Rattle.model_store.specs.Settled.{IsSettledFor, Leaves};
ghost use Rattle.store_core.specs.Dues.{due_at, leak_at, KeepsStored};
ghost use Rattle.store_core.specs.Keeping.{KeepsMail, KeepsUids};
ghost use Rattle.store_core.specs.MadeLogs.{KeepsGone};
ghost use Rattle.store_core.specs.declared.error.StepError.TheVariants as step_error;

use super::Store;
use super::append_map::append_entry;
use crate::error::StepError;
use disk_model::Disk;
use gate_log::{DiskFault, GateLog};
use log_records::map_entry_size;
use mdbox_base::{BoxNo, MapEntry, Name, NoMemory, name_of};
use std::alloc::Global;

impl<D: Disk> Store<D> {
    /// Adds an entry to the map log that gives a mailbox another name. Memory is taken before anything is written; a change of
    /// the disk that fails stops the store.
    pub fn append_name(&mut self, mailbox: BoxNo, name: &Name) -> Result<(), StepError>
        requires running { self.old.stopped ≡ false }
        requires fits { MapFits self.old.map (map_entry.V mailbox name.now) }

        // Of a settled disk each image at every moment is safe for its lists, or for those in which the mailbox has the name,
        // whichever call fails; and after Ok the disk is settled for the latter. Each record stores what it stored.
        ensures any_moment { (lists : Lists) → IsSettledFor lists (D.history self.old.disk) → Leaves lists (lists_changed (map_entry.V mailbox name.now) lists) (D.history self.old.disk) (D.history self.new.disk) }
        ensures mail_stays { (m : MapMeaning) → MailIsKept m (D.history self.old.disk) (D.history self.new.disk) }
        ensures settled { OnOk result ((lists : Lists) → IsSettledFor lists (D.history self.old.disk) → IsSettledFor (lists_changed (map_entry.V mailbox name.now) lists) (D.history self.new.disk)) }
        ensures stored { OnOk result (KeepsStored (D.history self.old.disk) (D.history self.new.disk)) }

        // After Ok the map means what it did, with the entry. What is due and what leaks stay, whatever is answered.
        ensures taken { OnOk result (self.new.map ≡ map_applied (map_entry.V mailbox name.now) self.old.map) }
        ensures records { self.new.map.records ≡ self.old.map.records }
        ensures due { (uid : ℕ) → due_at uid self.new ≡ due_at uid self.old }
        ensures leak { (uid : ℕ) → leak_at uid self.new ≡ leak_at uid self.old }

        // Storage files and instances are as they were. UIDs that others have taken from, and numbers that are gone, stay such.
        ensures others { OnOk result (KeepsMail (D.history self.old.disk) (D.history self.new.disk)) }
        ensures uids { KeepsUids self.old self.new }
        ensures gone { KeepsGone self.old self.new }

        // The map log grows, and its room never falls.
        ensures further { OnOk result (self.old.map_log.end < self.new.map_log.end) }
        ensures room { self.old.map_log.room ≤ self.new.map_log.room }

        ensures stopped { IsErrOf result step_error.Stopped ↔ (self.new.stopped ≡ true) }
        ensures untaken { IsErr result → self.new.map ≡ self.old.map }
        ensures memory { IsErrOf result step_error.NoMemory → self.new ≡ self.old }
        ensures same { self.new ≡ record self.old { disk = self.new.disk; map_log = self.new.map_log; map = self.new.map; stopped = self.new.stopped } }
        ensures grows { Grows (D.history self.old.disk) (D.history self.new.disk) }
        ensures fault { ChangeFaultCounted (IsErrOf result step_error.Stopped) (D.faults self.old.disk) (D.faults self.new.disk) }
        ensures unfailed { OnOk result (NoFault (D.faults self.old.disk) (D.faults self.new.disk)) }
    {
        let entry = take_renaming(self.alloc, &mut self.map_log, mailbox, name)?;
        match append_entry(&mut self.map_log, &mut self.disk, &entry, None) {
            Ok(()) => {
                self.map.take_in(entry);
                Ok(())
            }
            Err(DiskFault) => {
                self.stopped = true;
                Err(StepError::Stopped)
            }
        }
    }
}

/// Takes the memory for another name of a mailbox, and hands out the entry: there is room for it in the map log.
fn take_renaming(
    alloc: Global,
    log: &mut GateLog,
    mailbox: BoxNo,
    name: &Name,
) -> Result<MapEntry, NoMemory>
    ensures entry { IfOk result (λ entry. entry ≡ map_entry.V mailbox name.now) }
    ensures space { IfOk result (λ entry. length (map_text entry) + 5 ≤ log.new.room) }
    ensures name { IsName name.now }
    ensures no_less { log.old.room ≤ log.new.room }
    ensures log { log.new ≡ record log.old { room = log.new.room } }
    ensures err { OnErr result (log.new ≡ log.old) }
{
    let entry = renaming(alloc, mailbox, name)?;
    log.reserve(map_entry_size(&entry) + 5)?;
    Ok(entry)
}

/// The entry that gives a mailbox another name.
fn renaming(alloc: Global, mailbox: BoxNo, name: &Name) -> Result<MapEntry, NoMemory>
    ensures entry { IfOk result (λ entry. entry ≡ map_entry.V mailbox name.now) }
    ensures name { IsName name.now }
{
    let Some(name) = name_of(alloc, name.as_octets())? else {
        unreachable!()
    };
    Ok(MapEntry::V { mailbox, name })
}
