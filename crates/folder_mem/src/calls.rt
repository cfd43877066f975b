// The calls of a folder.
ghost use Rattle.std.specs.Prelude.{◌≡◌, ◌↔◌, ◌<◌, ◌≤◌, ℕ, true, false, length, take, drop, map, string_bytes, IfOk, IsErrOf, OnOk, OnErr};
ghost use Rattle.disk_model.specs.Disk.{written, cut_to};
ghost use Rattle.folder_model.specs.System.{ArePathsIn, IsHalfWritten, IsHalfCut, Nothing, PlainFile, AFolder, with_node, with_content, with_new_file, with_synced_file, with_synced_names, with_failed_sync, with_lock};
ghost use Rattle.folder_model.specs.Calls.{IfModelled, IfSound, IsDoneOrNot, IsPartlyDone, HasPassed, kind_of_node, done_by};
ghost use Rattle.folder_model.specs.declared.folder.CallError.TheVariants.{Interrupted};
ghost use Rattle.folder_mem.specs.Mem.{mem_model, mem_past};
ghost use Rattle.folder_mem.specs.SystemLaw.{system_is};

use crate::folder::{MemFile, MemFolder};
use crate::list::paths_below;
use crate::note::Change;
use crate::plan::Turn;
use crate::seen::{Thing, seen_file, seen_path};
use crate::text::Text;
use folder_model::{CallError, Folder, Kind};

impl Folder for MemFolder {
    type File = MemFile;

    ghost modelled = { mem_model };

    ghost past = { mem_past };

    ghost number = { λ file. file.number };

    fn try_lock(&mut self) -> Result<bool, CallError>
        ensures locked { IfOk result (λ locked. locked ≡ true → mem_model self.new ≡ done_by with_lock (mem_model self.old)) }
        ensures refused { IfOk result (λ locked. locked ≡ false → mem_model self.new ≡ mem_model self.old) }
        ensures failed { OnErr result (mem_model self.new ≡ mem_model self.old) }
        ensures passed { HasPassed (mem_model self.old) (mem_past self.old) (mem_model self.new) (mem_past self.new) }
    {
        if let Turn::Broken = self.begin()? {
            return Err(CallError::Failed);
        }
        if self.is_held {
            return Ok(false);
        }
        self.note(Change::Locked)?;
        Ok(true)
    }

    /// It passes no time.
    fn pause(&mut self)
        ensures same { mem_model self.new ≡ mem_model self.old }
        ensures still { mem_past self.new ≡ mem_past self.old }
    {}

    fn look(&mut self, path: &str) -> Result<Kind, CallError>
        ensures kind { IfOk result (λ kind. IfSound (mem_model self.old) (λ s. kind ≡ kind_of_node (s.node path.now))) }
        ensures same { mem_model self.new ≡ mem_model self.old }
        ensures still { mem_past self.new ≡ mem_past self.old }
    {
        if let Turn::Broken = self.begin()? {
            return Err(CallError::Failed);
        }
        Ok(match seen_path(&self.changes, path).thing {
            Thing::Nothing => Kind::Nothing,
            Thing::File(_) => Kind::File,
            Thing::Folder => Kind::Folder,
        })
    }

    fn paths_in(&mut self, path: &str) -> Result<Vec<String>, CallError>
        ensures paths { IfOk result (λ paths. IfSound (mem_model self.old) (λ s. ArePathsIn s path.now (map string_bytes paths.items))) }
        ensures same { mem_model self.new ≡ mem_model self.old }
        ensures still { mem_past self.new ≡ mem_past self.old }
    {
        if let Turn::Broken = self.begin()? {
            return Err(CallError::Failed);
        }
        Ok(paths_below(self.alloc, &self.changes, path)?)
    }

    fn open(&mut self, path: &str, to_write: bool) -> Result<MemFile, CallError>
        ensures file { IfOk result (λ file. IfSound (mem_model self.old) (λ s. (n : ℕ) → s.node path.now ≡ PlainFile n → file.number ≡ n)) }
        ensures same { mem_model self.new ≡ mem_model self.old }
        ensures still { mem_past self.new ≡ mem_past self.old }
    {
        if let Turn::Broken = self.begin()? {
            return Err(CallError::Failed);
        }
        match seen_path(&self.changes, path).thing {
            Thing::File(number) => Ok(MemFile { number }),
            _ => Err(CallError::Failed),
        }
    }

    fn make_new(&mut self, path: &str) -> Result<MemFile, CallError>
        ensures there { OnOk result (IfSound (mem_model self.old) (λ s. s.node path.now ≡ Nothing)) }
        ensures number { IfOk result (λ file. IfModelled (mem_model self.old) (λ s. file.number ≡ s.count)) }
        ensures made { OnOk result (mem_model self.new ≡ done_by (with_new_file path.now) (mem_model self.old)) }
        ensures failed { OnErr result (IsDoneOrNot (with_new_file path.now) (mem_model self.old) (mem_model self.new)) }
        ensures passed { HasPassed (mem_model self.old) (mem_past self.old) (mem_model self.new) (mem_past self.new) }
    {
        let turn = self.begin()?;
        let seen = seen_path(&self.changes, path);
        if seen.thing != Thing::Nothing {
            return Err(CallError::Failed);
        }
        let path = self.text_of(path)?;
        self.note(Change::MadeFile(path))?;
        match turn {
            Turn::Broken => Err(CallError::Failed),
            _ => Ok(MemFile { number: seen.count }),
        }
    }

    fn length(&mut self, file: &MemFile) -> Result<u64, CallError>
        ensures length { IfOk result (λ n. IfSound (mem_model self.old) (λ s. n ≡ length (s.content file.now.number).octets)) }
        ensures same { mem_model self.new ≡ mem_model self.old }
        ensures still { mem_past self.new ≡ mem_past self.old }
    {
        if let Turn::Broken = self.begin()? {
            return Err(CallError::Failed);
        }
        let seen = seen_file(self.alloc, &self.changes, file.number)?;
        Ok(seen.text.octets.len() as u64)
    }

    fn read_some(
        &mut self,
        file: &MemFile,
        offset: u64,
        into: &mut [u8],
    ) -> Result<usize, CallError>
        ensures count { IfOk result (λ n. n ≤ length into.new) }
        ensures octets { IfOk result (λ n. IfSound (mem_model self.old) (λ s. take n into.new ≡ take n (drop offset (s.content file.now.number).octets))) }
        ensures some { IfOk result (λ n. IfSound (mem_model self.old) (λ s. 0 < length into.old → offset < length (s.content file.now.number).octets → 0 < n)) }
        ensures same { mem_model self.new ≡ mem_model self.old }
        ensures still { mem_past self.new ≡ mem_past self.old }
    {
        let count = match self.begin()? {
            Turn::Broken => return Err(CallError::Failed),
            Turn::Half => half_of(into.len()),
            _ => into.len(),
        };
        let seen = seen_file(self.alloc, &self.changes, file.number)?;
        Ok(seen.text.read(offset, count, into))
    }

    fn write_some(&mut self, file: &MemFile, offset: u64, from: &[u8]) -> Result<usize, CallError>
        requires reaches { IfModelled (mem_model self.old) (λ s. offset ≤ length (s.content file.now.number).octets) }
        ensures count { IfOk result (λ n. n ≤ length from.now) }
        ensures wrote { IfOk result (λ n. mem_model self.new ≡ done_by (with_content file.now.number (written offset (take n from.now))) (mem_model self.old)) }
        ensures interrupted { IsErrOf result Interrupted → mem_model self.new ≡ mem_model self.old }
        ensures failed { OnErr result (IsPartlyDone file.now.number (IsHalfWritten offset (length from.now)) (mem_model self.old) (mem_model self.new)) }
        ensures passed { HasPassed (mem_model self.old) (mem_past self.old) (mem_model self.new) (mem_past self.new) }
    {
        let turn = self.begin()?;
        let count = match turn {
            Turn::Whole => from.len(),
            _ => half_of(from.len()),
        };
        let text = Text::of(self.alloc, &from[..count])?;
        self.note(Change::Written(file.number, offset, text))?;
        match turn {
            Turn::Broken => Err(CallError::Failed),
            _ => Ok(count),
        }
    }

    fn set_length(&mut self, file: &MemFile, end: u64) -> Result<(), CallError>
        ensures cut { OnOk result (mem_model self.new ≡ done_by (with_content file.now.number (cut_to end)) (mem_model self.old)) }
        ensures failed { OnErr result (IsPartlyDone file.now.number (IsHalfCut end) (mem_model self.old) (mem_model self.new)) }
        ensures passed { HasPassed (mem_model self.old) (mem_past self.old) (mem_model self.new) (mem_past self.new) }
    {
        let turn = self.begin()?;
        self.note(Change::Cut(file.number, end))?;
        finished(turn)
    }

    fn sync(&mut self, file: &MemFile) -> Result<(), CallError>
        ensures synced { OnOk result (mem_model self.new ≡ done_by (with_synced_file file.now.number) (mem_model self.old)) }
        ensures failed { OnErr result (IsDoneOrNot with_failed_sync (mem_model self.old) (mem_model self.new)) }
        ensures passed { HasPassed (mem_model self.old) (mem_past self.old) (mem_model self.new) (mem_past self.new) }
    {
        if let Turn::Broken = self.begin()? {
            self.note(Change::SyncFailed)?;
            return Err(CallError::Failed);
        }
        self.note(Change::Synced(file.number))?;
        Ok(())
    }

    fn remove(&mut self, path: &str) -> Result<(), CallError>
        ensures removed { OnOk result (mem_model self.new ≡ done_by (with_node path.now Nothing) (mem_model self.old)) }
        ensures failed { OnErr result (IsDoneOrNot (with_node path.now Nothing) (mem_model self.old) (mem_model self.new)) }
        ensures passed { HasPassed (mem_model self.old) (mem_past self.old) (mem_model self.new) (mem_past self.new) }
    {
        let turn = self.begin()?;
        let path = self.text_of(path)?;
        self.note(Change::Removed(path))?;
        finished(turn)
    }

    fn make_folder(&mut self, path: &str) -> Result<bool, CallError>
        ensures made { IfOk result (λ made. made ≡ true → mem_model self.new ≡ done_by (with_node path.now AFolder) (mem_model self.old)) }
        ensures there { IfOk result (λ made. IfSound (mem_model self.old) (λ s. made ≡ true ↔ (s.node path.now ≡ Nothing))) }
        ensures kept { IfOk result (λ made. made ≡ false → mem_model self.new ≡ mem_model self.old) }
        ensures failed { OnErr result (IsDoneOrNot (with_node path.now AFolder) (mem_model self.old) (mem_model self.new)) }
        ensures passed { HasPassed (mem_model self.old) (mem_past self.old) (mem_model self.new) (mem_past self.new) }
    {
        let turn = self.begin()?;
        if seen_path(&self.changes, path).thing != Thing::Nothing {
            return Ok(false);
        }
        let path = self.text_of(path)?;
        self.note(Change::MadeFolder(path))?;
        match turn {
            Turn::Broken => Err(CallError::Failed),
            _ => Ok(true),
        }
    }

    fn sync_folder(&mut self, path: &str) -> Result<(), CallError>
        ensures there { OnOk result (IfSound (mem_model self.old) (λ s. s.node path.now ≡ AFolder)) }
        ensures synced { OnOk result (mem_model self.new ≡ done_by (with_synced_names path.now) (mem_model self.old)) }
        ensures failed { OnErr result (IsDoneOrNot with_failed_sync (mem_model self.old) (mem_model self.new)) }
        ensures passed { HasPassed (mem_model self.old) (mem_past self.old) (mem_model self.new) (mem_past self.new) }
    {
        if let Turn::Broken = self.begin()? {
            self.note(Change::SyncFailed)?;
            return Err(CallError::Failed);
        }
        if seen_path(&self.changes, path).thing != Thing::Folder {
            return Err(CallError::Failed);
        }
        let path = self.text_of(path)?;
        self.note(Change::NamesSynced(path))?;
        Ok(())
    }

    ghost is_system = { λ folder. system_is folder.changes.items };
}

/// Half of so many, and of one all.
fn half_of(count: usize) -> usize
    ensures within { result ≤ count }
    ensures some { 0 < count → 0 < result }
{
    count - count / 2
}

/// How a call ends that has done what it was asked to.
fn finished(turn: Turn) -> Result<(), CallError> {
    match turn {
        Turn::Broken => Err(CallError::Failed),
        _ => Ok(()),
    }
}
