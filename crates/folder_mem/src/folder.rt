// A folder in memory.
ghost use Rattle.std.specs.Prelude.{◌≡◌, ◌≤◌, length};

use crate::note::Change;
use crate::plan::{Plan, Turn};
use crate::seen::seen_file;
use folder_model::CallError;
use mdbox_base::{NoMemory, Seq};
use std::alloc::Global;

/// An open file of a folder in memory.
#[derive(Drop)]
pub struct MemFile {
    pub(crate) number: u64,
}

/// The system's files in memory, as one process has them. Each change is kept, and what reads is found from all of them.
///
/// Its calls go as they are listed to, and fail where there is no memory.
#[derive(Drop)]
pub struct MemFolder {
    pub(crate) alloc: Global,
    pub(crate) changes: Vec<Change>,
    /// How many changes there were as the process began.
    pub(crate) from: usize,
    pub(crate) plan: Plan,
    /// Whether another process has the lock.
    pub(crate) is_held: bool,
    ghost begun: { from ≤ length changes.items },
}

impl MemFolder {
    ghost use Rattle.std.specs.Prelude.{[], Some, IfOk, IsTrue, OnOk, OnErr, string_bytes};
    ghost use Rattle.folder_model.specs.System.{after_end};
    ghost use Rattle.folder_model.specs.Calls.{IfModelled, done_by, passed};
    ghost use Rattle.folder_mem.specs.Notes.{empty_system, changes_to, system_after};
    ghost use Rattle.folder_mem.specs.Mem.{mem_model, mem_past};

    /// An empty folder.
    pub fn empty(alloc: Global) -> MemFolder
        ensures model { mem_model result ≡ Some (record { start = empty_system; now = empty_system }) }
        ensures past { mem_past result ≡ [] }
    {
        MemFolder {
            alloc,
            changes: Vec::new(alloc),
            from: 0,
            plan: Plan::none(alloc),
            is_held: false,
        }
    }

    /// The folder after these changes, as a new process finds it.
    pub(crate) fn begun(alloc: Global, changes: Vec<Change>) -> MemFolder
        ensures changes { result.changes.items ≡ changes.items }
        ensures from { result.from ≡ length changes.items }
    {
        let from = changes.len();
        MemFolder {
            alloc,
            changes,
            from,
            plan: Plan::none(alloc),
            is_held: false,
        }
    }

    /// The same folder, whose calls go so, by their numbers, counted from 1 after this call.
    pub fn going(self, turns: Seq<(u64, Turn)>) -> MemFolder
        ensures model { mem_model result ≡ mem_model self }
        ensures past { mem_past result ≡ mem_past self }
        ensures plan { result.plan ≡ record { turns = turns; call = 0; end = 0 } }
    {
        let mut folder = self;
        folder.plan = Plan {
            turns,
            call: 0,
            end: 0,
        };
        folder
    }

    /// The same folder, whose calls are refused from this one on, as if the process had ended. 0 for none.
    pub fn ending(self, end: u64) -> MemFolder
        ensures model { mem_model result ≡ mem_model self }
        ensures past { mem_past result ≡ mem_past self }
        ensures plan { result.plan ≡ record self.plan { end = end } }
    {
        let mut folder = self;
        folder.plan.end = end;
        folder
    }

    /// How many calls were made since they were counted from 1.
    pub fn calls(&self) -> u64
        ensures { result ≡ self.now.plan.call }
    {
        self.plan.call
    }

    /// Whether an offset lies within a file or at its end.
    pub(crate) fn reaches(&self, file: &MemFile, offset: u64) -> Result<bool, NoMemory>
        ensures { IfOk result (λ within. IsTrue within → IfModelled (mem_model self.now) (λ s. offset ≤ length (s.content file.now.number).octets)) }
    {
        let seen = seen_file(self.alloc, &self.changes, file.number)?;
        Ok(offset <= seen.text.octets.len() as u64)
    }

    /// The same folder, of which another process has the lock, or none.
    pub fn held(self, is_held: bool) -> MemFolder
        ensures model { mem_model result ≡ mem_model self }
        ensures past { mem_past result ≡ mem_past self }
        ensures held { result.is_held ≡ is_held }
    {
        let mut folder = self;
        folder.is_held = is_held;
        folder
    }

    /// What a new process finds after this one has ended.
    pub fn kill(self) -> Result<MemFolder, NoMemory>
        ensures past { IfOk result (λ folder. mem_past folder ≡ []) }
        ensures model { IfOk result (λ folder. let now = after_end (system_after self.changes.items) in mem_model folder ≡ Some (record { start = now; now = now })) }
    {
        let mut folder = self;
        folder.changes.push(Change::Ended)?;
        folder.from = folder.changes.len();
        Ok(folder)
    }

    /// Makes a change.
    pub(crate) fn note(&mut self, change: Change) -> Result<(), NoMemory>
        ensures ok { OnOk result (mem_model self.new ≡ done_by (changes_to change) (mem_model self.old)) }
        ensures passed { OnOk result (mem_past self.new ≡ passed (mem_model self.old) (mem_past self.old)) }
        ensures err { OnErr result (mem_model self.new ≡ mem_model self.old) }
        ensures still { OnErr result (mem_past self.new ≡ mem_past self.old) }
    {
        self.changes.push(change)?;
        Ok(())
    }

    /// How the next call goes. An error where nothing is to be done.
    pub(crate) fn begin(&mut self) -> Result<Turn, CallError>
        ensures model { mem_model self.new ≡ mem_model self.old }
        ensures past { mem_past self.new ≡ mem_past self.old }
    {
        match self.plan.next() {
            Turn::Interrupted => Err(CallError::Interrupted),
            Turn::Refused => Err(CallError::Failed),
            turn => Ok(turn),
        }
    }

    /// A path as a text of its own.
    pub(crate) fn text_of(&self, path: &str) -> Result<String, NoMemory>
        ensures { IfOk result (λ text. string_bytes text ≡ path.now) }
    {
        Ok(String::from_str(self.alloc, path)?)
    }
}
