// The file at a path.
ghost use Rattle.std.specs.Prelude.{true, false, ◌≡◌, ◌+◌, ◌<◌, ◌≤◌, ◌^◌, length, take, drop, IfOk, IfSome, IfNone, OnOk, OnErr};
ghost use Rattle.disk_model.specs.Disk.{written, cut_to};
ghost use Rattle.disk_record.specs.declared.change.Change.TheVariants.{Made, HalfMade, Removed, HalfRemoved};
ghost use Rattle.file_paths.specs.Paths.{path_text, IsStoreFile};
ghost use Rattle.folder_model.specs.Paths.{IsPath};
ghost use Rattle.folder_model.specs.System.{with_synced_file, with_failed_sync, IsHalfWritten, IsHalfCut};
ghost use Rattle.folder_model.specs.Calls.{IfModelled, IsLocked, IsDoneOrNot, HasPassed, Becomes};
ghost use Rattle.folder_calls.specs.Writing.{IsWriting};
ghost use Rattle.folder_disk.specs.Files.{IsOpenedAt, IsSoundSystem, IfFile, HasFileAt, HasNoFile, HasDurableFile, IsChanged, IsPartlyChanged, AreAfter};
ghost use Rattle.folder_disk.specs.Changed.{KeepsNames, ChangesName, NotesNames};
ghost use Rattle.folder_disk.specs.Folders.{folder_text, folder_for, IsSyncedFolder, IsUnseen, IsSeenAs};

use crate::changed::Changed;
use crate::folder_name::FolderName;
use crate::folders::{make_way, sync_one};
use disk_model::FileName;
use folder_calls::{read_all, write_all};
use folder_model::{CallError, Folder, Kind};
use std::alloc::Global;

/// Opens the plain file at a path. None where none stands there.
pub(crate) fn open_at<F: Folder>(
    folder: &mut F,
    path: &str,
    to_write: bool,
) -> Result<Option<F::File>, CallError>
    requires locked { IsLocked (F.modelled folder.old) }
    requires sound { IsSoundSystem (F.modelled folder.old) }
    requires spelled { IsPath path.now }
    ensures found { IfOk result (λ found. IfModelled (F.modelled folder.old) (λ s. IsOpenedAt F.number found (s.node path.now))) }
    ensures same { F.modelled folder.new ≡ F.modelled folder.old }
    ensures still { F.past folder.new ≡ F.past folder.old }
{
    match folder.look(path)? {
        Kind::File => Ok(Some(folder.open(path, to_write)?)),
        Kind::Nothing | Kind::Folder | Kind::Other => Ok(None),
    }
}

/// The length of the file at a path. None where none stands there.
pub(crate) fn length_at<F: Folder>(folder: &mut F, path: &str) -> Result<Option<u64>, CallError>
    requires locked { IsLocked (F.modelled folder.old) }
    requires sound { IsSoundSystem (F.modelled folder.old) }
    requires spelled { IsPath path.now }
    ensures some { IfOk result (λ found. IfSome found (λ n. IfModelled (F.modelled folder.old) (λ s. HasFileAt s path.now (λ number. n ≡ length (s.content number).octets)))) }
    ensures none { IfOk result (λ found. IfNone found (IfModelled (F.modelled folder.old) (λ s. HasNoFile s path.now))) }
    ensures same { F.modelled folder.new ≡ F.modelled folder.old }
    ensures still { F.past folder.new ≡ F.past folder.old }
{
    match open_at(folder, path, false)? {
        Some(file) => Ok(Some(folder.length(&file)?)),
        None => Ok(None),
    }
}

/// Reads the file at a path from an offset to its end or that of `into`, and answers how many octets. None where none stands
/// there.
pub(crate) fn read_at<F: Folder>(
    folder: &mut F,
    path: &str,
    offset: u64,
    into: &mut [u8],
) -> Result<Option<usize>, CallError>
    requires locked { IsLocked (F.modelled folder.old) }
    requires sound { IsSoundSystem (F.modelled folder.old) }
    requires spelled { IsPath path.now }
    ensures count { IfOk result (λ found. IfSome found (λ n. n ≤ length into.new)) }
    ensures some { IfOk result (λ found. IfSome found (λ n. IfModelled (F.modelled folder.old) (λ s. HasFileAt s path.now (λ number. take n into.new ≡ take (length into.old) (drop offset (s.content number).octets))))) }
    ensures none { IfOk result (λ found. IfNone found (IfModelled (F.modelled folder.old) (λ s. HasNoFile s path.now))) }
    ensures rest { IfOk result (λ found. IfSome found (λ n. drop n into.new ≡ drop n into.old)) }
    ensures untouched { IfOk result (λ found. IfNone found (into.new ≡ into.old)) }
    ensures same { F.modelled folder.new ≡ F.modelled folder.old }
    ensures still { F.past folder.new ≡ F.past folder.old }
{
    let Some(file) = open_at(folder, path, false)? else {
        return Ok(None);
    };
    let left = folder.length(&file)?.saturating_sub(offset);
    let count = (into.len() as u64).min(left) as usize;
    read_all(folder, &file, offset, &mut into[..count])?;
    Ok(Some(count))
}

/// Writes to the file at a path, at an offset within it or at its end.
pub(crate) fn write_at<F: Folder>(
    folder: &mut F,
    path: &str,
    offset: u64,
    from: &[u8],
) -> Result<(), CallError>
    requires locked { IsLocked (F.modelled folder.old) }
    requires sound { IsSoundSystem (F.modelled folder.old) }
    requires spelled { IsPath path.now }
    requires reaches { IfModelled (F.modelled folder.old) (λ s. IfFile s path.now (λ number. offset ≤ length (s.content number).octets)) }
    ensures ok { OnOk result (Becomes (IsChanged path.now (written offset from.now)) (F.modelled folder.old) (F.modelled folder.new)) }
    ensures err { OnErr result (Becomes (IsPartlyChanged path.now (IsHalfWritten offset (length from.now))) (F.modelled folder.old) (F.modelled folder.new)) }
    ensures passed { AreAfter (λ before s. HasFileAt before path.now (λ number. IsWriting number offset from.now before s)) (F.modelled folder.old) (F.past folder.old) (F.past folder.new) }
    ensures fits { OnOk result (offset + length from.now < 2 ^ 64) }
{
    let Some(file) = open_at(folder, path, true)? else {
        return Err(CallError::Failed);
    };
    write_all(folder, &file, offset, from)
}

/// Shortens the file at a path.
pub(crate) fn cut_at<F: Folder>(folder: &mut F, path: &str, end: u64) -> Result<(), CallError>
    requires locked { IsLocked (F.modelled folder.old) }
    requires sound { IsSoundSystem (F.modelled folder.old) }
    requires spelled { IsPath path.now }
    requires reaches { IfModelled (F.modelled folder.old) (λ s. IfFile s path.now (λ number. end ≤ length (s.content number).octets)) }
    ensures ok { OnOk result (Becomes (IsChanged path.now (cut_to end)) (F.modelled folder.old) (F.modelled folder.new)) }
    ensures err { OnErr result (Becomes (IsPartlyChanged path.now (IsHalfCut end)) (F.modelled folder.old) (F.modelled folder.new)) }
    ensures passed { HasPassed (F.modelled folder.old) (F.past folder.old) (F.modelled folder.new) (F.past folder.new) }
{
    let Some(file) = open_at(folder, path, true)? else {
        return Err(CallError::Failed);
    };
    folder.set_length(&file, end)
}

/// Syncs the file at a path.
pub(crate) fn sync_at<F: Folder>(folder: &mut F, path: &str) -> Result<(), CallError>
    requires locked { IsLocked (F.modelled folder.old) }
    requires sound { IsSoundSystem (F.modelled folder.old) }
    requires spelled { IsPath path.now }
    ensures ok { OnOk result (Becomes (λ before s. HasFileAt before path.now (λ number. s ≡ with_synced_file number before)) (F.modelled folder.old) (F.modelled folder.new)) }
    ensures err { OnErr result (IsDoneOrNot with_failed_sync (F.modelled folder.old) (F.modelled folder.new)) }
    ensures passed { HasPassed (F.modelled folder.old) (F.past folder.old) (F.modelled folder.new) (F.past folder.new) }
{
    let Some(file) = open_at(folder, path, true)? else {
        return Err(CallError::Failed);
    };
    folder.sync(&file)
}

/// Syncs the file at a path, if one stands there. No change of the disk is told by it.
pub(crate) fn settle_at<F: Folder>(folder: &mut F, path: &str) -> Result<(), CallError>
    requires locked { IsLocked (F.modelled folder.old) }
    requires sound { IsSoundSystem (F.modelled folder.old) }
    requires spelled { IsPath path.now }
    ensures sound { OnOk result (IsSoundSystem (F.modelled folder.new)) }
    ensures durable { OnOk result (IfModelled (F.modelled folder.new) (HasDurableFile path.now)) }
    ensures unseen { OnOk result (IsUnseen (F.modelled folder.old) (F.past folder.old) (F.modelled folder.new) (F.past folder.new) false) }
    ensures names { OnOk result (Becomes KeepsNames (F.modelled folder.old) (F.modelled folder.new)) }
    ensures failed { OnErr result (IsUnseen (F.modelled folder.old) (F.past folder.old) (F.modelled folder.new) (F.past folder.new) true) }
{
    let Some(file) = open_at(folder, path, false)? else {
        return Ok(());
    };
    folder.sync(&file)
}

/// Makes a file in a folder whose names are synced. One that stands there is emptied, and what else stands there is an error.
fn make_within<F: Folder>(folder: &mut F, path: &str, name: FileName) -> Result<(), CallError>
    requires locked { IsLocked (F.modelled folder.old) }
    requires sound { IsSoundSystem (F.modelled folder.old) }
    requires file { IsStoreFile name }
    requires named { path.now ≡ path_text name }
    requires spelled { IsPath path.now }
    requires synced { IfModelled (F.modelled folder.old) (λ s. IsSyncedFolder s (folder_text (folder_for name))) }
    ensures ok { OnOk result (IsSeenAs (Made name) (F.modelled folder.old) (F.past folder.old) (F.modelled folder.new) (F.past folder.new) false) }
    ensures names { OnOk result (Becomes (ChangesName path.now) (F.modelled folder.old) (F.modelled folder.new)) }
    ensures err { OnErr result (IsSeenAs (HalfMade name) (F.modelled folder.old) (F.past folder.old) (F.modelled folder.new) (F.past folder.new) true) }
{
    match folder.look(path)? {
        Kind::File => cut_at(folder, path, 0),
        Kind::Nothing => {
            let _file = folder.make_new(path)?;
            Ok(())
        }
        _ => Err(CallError::Failed),
    }
}

/// Makes a file, and its folders where they aren't there. The names in its folder are synced before, so that after a crash no
/// file that was removed stands in the new one's place.
pub(crate) fn make_file<F: Folder>(
    folder: &mut F,
    alloc: Global,
    changed: &mut Changed,
    path: &str,
    name: FileName,
) -> Result<(), CallError>
    requires locked { IsLocked (F.modelled folder.old) }
    requires sound { IsSoundSystem (F.modelled folder.old) }
    requires file { IsStoreFile name }
    requires named { path.now ≡ path_text name }
    requires spelled { IsPath path.now }
    ensures ok { OnOk result (IsSeenAs (Made name) (F.modelled folder.old) (F.past folder.old) (F.modelled folder.new) (F.past folder.new) false) }
    ensures names { OnOk result (Becomes (NotesNames changed.old changed.new) (F.modelled folder.old) (F.modelled folder.new)) }
    ensures err { OnErr result (IsSeenAs (HalfMade name) (F.modelled folder.old) (F.past folder.old) (F.modelled folder.new) (F.past folder.new) true) }
{
    let within = FolderName::of(name);
    make_way(folder, alloc, changed, within)?;
    sync_one(folder, alloc, within)?;
    changed.note(within);
    make_within(folder, path, name)
}

/// Removes a file, if one stands there. Whether one did.
pub(crate) fn remove_file<F: Folder>(
    folder: &mut F,
    path: &str,
    name: FileName,
) -> Result<bool, CallError>
    requires locked { IsLocked (F.modelled folder.old) }
    requires sound { IsSoundSystem (F.modelled folder.old) }
    requires file { IsStoreFile name }
    requires named { path.now ≡ path_text name }
    requires spelled { IsPath path.now }
    ensures ok { OnOk result (IsSeenAs (Removed name) (F.modelled folder.old) (F.past folder.old) (F.modelled folder.new) (F.past folder.new) false) }
    ensures names { IfOk result (λ removed. removed ≡ true → Becomes (ChangesName path.now) (F.modelled folder.old) (F.modelled folder.new)) }
    ensures none { IfOk result (λ removed. removed ≡ false → F.modelled folder.new ≡ F.modelled folder.old) }
    ensures err { OnErr result (IsSeenAs (HalfRemoved name) (F.modelled folder.old) (F.past folder.old) (F.modelled folder.new) (F.past folder.new) true) }
{
    match folder.look(path)? {
        Kind::File => {
            folder.remove(path)?;
            Ok(true)
        }
        _ => Ok(false),
    }
}
