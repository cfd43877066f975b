// Folders that are made, and whose names are synced.
ghost use Rattle.std.specs.Prelude.{◌≡◌, ◌≢◌, true, false, All, IfOk, OnOk, OnErr};
ghost use Rattle.folder_model.specs.System.{Nothing, AFolder, with_synced_names};
ghost use Rattle.folder_model.specs.Calls.{IfModelled, IsLocked, Becomes, kind_of_node, done_by};
ghost use Rattle.disk_record.specs.declared.change.Change.TheVariants as change;
ghost use Rattle.folder_disk.specs.Files.{IsSoundSystem};
ghost use Rattle.folder_disk.specs.Folders.{folder_text, upper_of, IsSyncedFolder, AreSynced, HasSameNodes, IsUnseen, IsSeenAs};
ghost use Rattle.folder_disk.specs.Over.{HasFolders};
ghost use Rattle.folder_disk.specs.Changed.{KeepsNames, AreSyncedBut, NotesNames};
ghost use Rattle.folder_disk.specs.declared.folder_name.FolderName.TheVariants.{Top, Outer, Inner};

use crate::changed::Changed;
use crate::folder_name::{FolderName, known_folder};
use crate::listing::folders_there;
use folder_model::{CallError, Folder, Kind};
use std::alloc::Global;

/// What stands at a folder's path.
pub(crate) fn kind_of<F: Folder>(
    folder: &mut F,
    alloc: Global,
    name: FolderName,
) -> Result<Kind, CallError>
    requires locked { IsLocked (F.modelled folder.old) }
    requires sound { IsSoundSystem (F.modelled folder.old) }
    ensures kind { IfOk result (λ kind. IfModelled (F.modelled folder.old) (λ s. kind ≡ kind_of_node (s.node (folder_text name)))) }
    ensures same { F.modelled folder.new ≡ F.modelled folder.old }
    ensures still { F.past folder.new ≡ F.past folder.old }
{
    known_folder(name);
    let path = name.path(alloc)?;
    folder.look(path.as_str())
}

/// Makes a folder where nothing stands, in one that is there.
fn make_new_folder<F: Folder>(
    folder: &mut F,
    alloc: Global,
    changed: &mut Changed,
    name: FolderName,
) -> Result<(), CallError>
    requires locked { IsLocked (F.modelled folder.old) }
    requires sound { IsSoundSystem (F.modelled folder.old) }
    requires below { name ≢ Top }
    requires above { IfModelled (F.modelled folder.old) (λ s. s.node (folder_text (upper_of name)) ≡ AFolder) }
    requires nothing { IfModelled (F.modelled folder.old) (λ s. s.node (folder_text name) ≡ Nothing) }
    ensures there { OnOk result (IfModelled (F.modelled folder.new) (λ s. s.node (folder_text name) ≡ AFolder)) }
    ensures sound { OnOk result (IsSoundSystem (F.modelled folder.new)) }
    ensures unseen { OnOk result (IsUnseen (F.modelled folder.old) (F.past folder.old) (F.modelled folder.new) (F.past folder.new) false) }
    ensures names { OnOk result (Becomes (NotesNames changed.old changed.new) (F.modelled folder.old) (F.modelled folder.new)) }
    ensures failed { OnErr result (IsUnseen (F.modelled folder.old) (F.past folder.old) (F.modelled folder.new) (F.past folder.new) true) }
{
    known_folder(name);
    let path = name.path(alloc)?;
    changed.note(name.upper());
    changed.note(name);
    if folder.make_folder(path.as_str())? {
        Ok(())
    } else {
        Err(CallError::Failed)
    }
}

/// Makes a folder where it isn't there, in one that is there.
fn make_one<F: Folder>(
    folder: &mut F,
    alloc: Global,
    changed: &mut Changed,
    name: FolderName,
) -> Result<(), CallError>
    requires locked { IsLocked (F.modelled folder.old) }
    requires sound { IsSoundSystem (F.modelled folder.old) }
    requires below { name ≢ Top }
    requires above { IfModelled (F.modelled folder.old) (λ s. s.node (folder_text (upper_of name)) ≡ AFolder) }
    ensures there { OnOk result (IfModelled (F.modelled folder.new) (λ s. s.node (folder_text name) ≡ AFolder)) }
    ensures sound { OnOk result (IsSoundSystem (F.modelled folder.new)) }
    ensures unseen { OnOk result (IsUnseen (F.modelled folder.old) (F.past folder.old) (F.modelled folder.new) (F.past folder.new) false) }
    ensures names { OnOk result (Becomes (NotesNames changed.old changed.new) (F.modelled folder.old) (F.modelled folder.new)) }
    ensures failed { OnErr result (IsUnseen (F.modelled folder.old) (F.past folder.old) (F.modelled folder.new) (F.past folder.new) true) }
{
    match kind_of(folder, alloc, name)? {
        Kind::Folder => Ok(()),
        Kind::Nothing => make_new_folder(folder, alloc, changed, name),
        _ => Err(CallError::Failed),
    }
}

/// The current folder is there.
fn check_top<F: Folder>(folder: &mut F, alloc: Global) -> Result<(), CallError>
    requires locked { IsLocked (F.modelled folder.old) }
    requires sound { IsSoundSystem (F.modelled folder.old) }
    ensures same { F.modelled folder.new ≡ F.modelled folder.old }
    ensures there { OnOk result (IfModelled (F.modelled folder.new) (λ s. s.node (folder_text Top) ≡ AFolder)) }
    ensures sound { OnOk result (IsSoundSystem (F.modelled folder.new)) }
    ensures unseen { OnOk result (IsUnseen (F.modelled folder.old) (F.past folder.old) (F.modelled folder.new) (F.past folder.new) false) }
    ensures failed { OnErr result (IsUnseen (F.modelled folder.old) (F.past folder.old) (F.modelled folder.new) (F.past folder.new) true) }
{
    match kind_of(folder, alloc, FolderName::Top)? {
        Kind::Folder => Ok(()),
        _ => Err(CallError::Failed),
    }
}

/// Makes a folder in the current one, where it isn't there.
fn make_first<F: Folder>(
    folder: &mut F,
    alloc: Global,
    changed: &mut Changed,
    name: FolderName,
) -> Result<(), CallError>
    requires locked { IsLocked (F.modelled folder.old) }
    requires sound { IsSoundSystem (F.modelled folder.old) }
    requires below { name ≢ Top }
    requires first { upper_of name ≡ Top }
    ensures there { OnOk result (IfModelled (F.modelled folder.new) (λ s. s.node (folder_text name) ≡ AFolder)) }
    ensures sound { OnOk result (IsSoundSystem (F.modelled folder.new)) }
    ensures unseen { OnOk result (IsUnseen (F.modelled folder.old) (F.past folder.old) (F.modelled folder.new) (F.past folder.new) false) }
    ensures names { OnOk result (Becomes (NotesNames changed.old changed.new) (F.modelled folder.old) (F.modelled folder.new)) }
    ensures failed { OnErr result (IsUnseen (F.modelled folder.old) (F.past folder.old) (F.modelled folder.new) (F.past folder.new) true) }
{
    check_top(folder, alloc)?;
    make_one(folder, alloc, changed, name)
}

/// Makes an outer folder of instances, where it isn't there.
fn make_outer<F: Folder>(
    folder: &mut F,
    alloc: Global,
    changed: &mut Changed,
    first: u8,
) -> Result<(), CallError>
    requires locked { IsLocked (F.modelled folder.old) }
    requires sound { IsSoundSystem (F.modelled folder.old) }
    ensures there { OnOk result (IfModelled (F.modelled folder.new) (λ s. s.node (folder_text (Outer first)) ≡ AFolder)) }
    ensures sound { OnOk result (IsSoundSystem (F.modelled folder.new)) }
    ensures unseen { OnOk result (IsUnseen (F.modelled folder.old) (F.past folder.old) (F.modelled folder.new) (F.past folder.new) false) }
    ensures names { OnOk result (Becomes (NotesNames changed.old changed.new) (F.modelled folder.old) (F.modelled folder.new)) }
    ensures failed { OnErr result (IsUnseen (F.modelled folder.old) (F.past folder.old) (F.modelled folder.new) (F.past folder.new) true) }
{
    make_first(folder, alloc, changed, FolderName::Attachments)?;
    make_one(folder, alloc, changed, FolderName::Outer(first))
}

/// Makes a folder of instances, where it isn't there.
fn make_inner<F: Folder>(
    folder: &mut F,
    alloc: Global,
    changed: &mut Changed,
    first: u8,
    second: u8,
) -> Result<(), CallError>
    requires locked { IsLocked (F.modelled folder.old) }
    requires sound { IsSoundSystem (F.modelled folder.old) }
    ensures there { OnOk result (IfModelled (F.modelled folder.new) (λ s. s.node (folder_text (Inner first second)) ≡ AFolder)) }
    ensures sound { OnOk result (IsSoundSystem (F.modelled folder.new)) }
    ensures unseen { OnOk result (IsUnseen (F.modelled folder.old) (F.past folder.old) (F.modelled folder.new) (F.past folder.new) false) }
    ensures names { OnOk result (Becomes (NotesNames changed.old changed.new) (F.modelled folder.old) (F.modelled folder.new)) }
    ensures failed { OnErr result (IsUnseen (F.modelled folder.old) (F.past folder.old) (F.modelled folder.new) (F.past folder.new) true) }
{
    make_outer(folder, alloc, changed, first)?;
    make_one(folder, alloc, changed, FolderName::Inner(first, second))
}

/// Makes a folder and those above it, where they aren't there. What else stands in the place of one is an error.
pub(crate) fn make_way<F: Folder>(
    folder: &mut F,
    alloc: Global,
    changed: &mut Changed,
    name: FolderName,
) -> Result<(), CallError>
    requires locked { IsLocked (F.modelled folder.old) }
    requires sound { IsSoundSystem (F.modelled folder.old) }
    ensures there { OnOk result (IfModelled (F.modelled folder.new) (λ s. s.node (folder_text name) ≡ AFolder)) }
    ensures sound { OnOk result (IsSoundSystem (F.modelled folder.new)) }
    ensures unseen { OnOk result (IsUnseen (F.modelled folder.old) (F.past folder.old) (F.modelled folder.new) (F.past folder.new) false) }
    ensures names { OnOk result (Becomes (NotesNames changed.old changed.new) (F.modelled folder.old) (F.modelled folder.new)) }
    ensures failed { OnErr result (IsUnseen (F.modelled folder.old) (F.past folder.old) (F.modelled folder.new) (F.past folder.new) true) }
{
    match name {
        FolderName::Top => check_top(folder, alloc),
        FolderName::Storage => make_first(folder, alloc, changed, FolderName::Storage),
        FolderName::Mailboxes => make_first(folder, alloc, changed, FolderName::Mailboxes),
        FolderName::Attachments => make_first(folder, alloc, changed, FolderName::Attachments),
        FolderName::Outer(first) => make_outer(folder, alloc, changed, first),
        FolderName::Inner(first, second) => make_inner(folder, alloc, changed, first, second),
    }
}

/// Syncs the names in a folder. What is no folder is an error.
pub(crate) fn sync_one<F: Folder>(
    folder: &mut F,
    alloc: Global,
    name: FolderName,
) -> Result<(), CallError>
    requires locked { IsLocked (F.modelled folder.old) }
    requires sound { IsSoundSystem (F.modelled folder.old) }
    ensures synced { OnOk result (F.modelled folder.new ≡ done_by (with_synced_names (folder_text name)) (F.modelled folder.old)) }
    ensures names { OnOk result (Becomes KeepsNames (F.modelled folder.old) (F.modelled folder.new)) }
    ensures done { OnOk result (IfModelled (F.modelled folder.new) (λ s. IsSyncedFolder s (folder_text name))) }
    ensures sound { OnOk result (IsSoundSystem (F.modelled folder.new)) }
    ensures unseen { OnOk result (IsUnseen (F.modelled folder.old) (F.past folder.old) (F.modelled folder.new) (F.past folder.new) false) }
    ensures failed { OnErr result (IsUnseen (F.modelled folder.old) (F.past folder.old) (F.modelled folder.new) (F.past folder.new) true) }
{
    known_folder(name);
    let path = name.path(alloc)?;
    folder.sync_folder(path.as_str())
}

/// Syncs the names in each of these folders.
fn sync_each<F: Folder>(
    folder: &mut F,
    alloc: Global,
    names: &[FolderName],
) -> Result<(), CallError>
    requires locked { IsLocked (F.modelled folder.old) }
    requires sound { IsSoundSystem (F.modelled folder.old) }
    ensures done { OnOk result (IfModelled (F.modelled folder.new) (λ s. All (λ name. IsSyncedFolder s (folder_text name)) names.now)) }
    ensures nodes { OnOk result (Becomes HasSameNodes (F.modelled folder.old) (F.modelled folder.new)) }
    ensures names { OnOk result (Becomes KeepsNames (F.modelled folder.old) (F.modelled folder.new)) }
    ensures unseen { OnOk result (IsUnseen (F.modelled folder.old) (F.past folder.old) (F.modelled folder.new) (F.past folder.new) false) }
    ensures failed { OnErr result (IsUnseen (F.modelled folder.old) (F.past folder.old) (F.modelled folder.new) (F.past folder.new) true) }
{
    for name in names {
        sync_one(folder, alloc, *name)?;
    }
    Ok(())
}

/// Syncs the names in each folder of a store that is there, and in the current one.
fn sync_all<F: Folder>(folder: &mut F, alloc: Global) -> Result<(), CallError>
    requires locked { IsLocked (F.modelled folder.old) }
    requires sound { IsSoundSystem (F.modelled folder.old) }
    ensures synced { OnOk result ∥ IfModelled (F.modelled folder.new) (λ s. HasFolders s → AreSynced s) ∥₁ }
    ensures unseen { OnOk result (IsUnseen (F.modelled folder.old) (F.past folder.old) (F.modelled folder.new) (F.past folder.new) false) }
    ensures failed { OnErr result (IsUnseen (F.modelled folder.old) (F.past folder.old) (F.modelled folder.new) (F.past folder.new) true) }
{
    let names = folders_there(folder, alloc)?;
    sync_each(folder, alloc, &names)
}

/// Syncs the names in each folder that is noted.
fn sync_noted<F: Folder>(folder: &mut F, alloc: Global, changed: &Changed) -> Result<(), CallError>
    requires locked { IsLocked (F.modelled folder.old) }
    requires sound { IsSoundSystem (F.modelled folder.old) }
    requires noted { ∥ IfModelled (F.modelled folder.old) (AreSyncedBut changed.now) ∥₁ }
    requires some { changed.now.is_all ≡ false }
    ensures synced { OnOk result ∥ IfModelled (F.modelled folder.new) (λ s. HasFolders s → AreSynced s) ∥₁ }
    ensures unseen { OnOk result (IsUnseen (F.modelled folder.old) (F.past folder.old) (F.modelled folder.new) (F.past folder.new) false) }
    ensures failed { OnErr result (IsUnseen (F.modelled folder.old) (F.past folder.old) (F.modelled folder.new) (F.past folder.new) true) }
{
    check_top(folder, alloc)?;
    sync_each(folder, alloc, &changed.folders)
}

/// Syncs the names in each folder in which one may have changed.
fn sync_changed<F: Folder>(
    folder: &mut F,
    alloc: Global,
    changed: &Changed,
) -> Result<(), CallError>
    requires locked { IsLocked (F.modelled folder.old) }
    requires sound { IsSoundSystem (F.modelled folder.old) }
    requires noted { ∥ IfModelled (F.modelled folder.old) (AreSyncedBut changed.now) ∥₁ }
    ensures synced { OnOk result ∥ IfModelled (F.modelled folder.new) (λ s. HasFolders s → AreSynced s) ∥₁ }
    ensures unseen { OnOk result (IsUnseen (F.modelled folder.old) (F.past folder.old) (F.modelled folder.new) (F.past folder.new) false) }
    ensures failed { OnErr result (IsUnseen (F.modelled folder.old) (F.past folder.old) (F.modelled folder.new) (F.past folder.new) true) }
{
    if changed.is_all {
        sync_all(folder, alloc)
    } else {
        sync_noted(folder, alloc, changed)
    }
}

/// Syncs all names: those in each folder in which one may have changed.
pub(crate) fn sync_names<F: Folder>(
    folder: &mut F,
    alloc: Global,
    changed: &Changed,
) -> Result<(), CallError>
    requires locked { IsLocked (F.modelled folder.old) }
    requires sound { IsSoundSystem (F.modelled folder.old) }
    requires noted { ∥ IfModelled (F.modelled folder.old) (AreSyncedBut changed.now) ∥₁ }
    ensures synced { OnOk result ∥ IfModelled (F.modelled folder.new) (λ s. HasFolders s → AreSynced s) ∥₁ }
    ensures ok { OnOk result (IsSeenAs change.NamesSynced (F.modelled folder.old) (F.past folder.old) (F.modelled folder.new) (F.past folder.new) false) }
    ensures err { OnErr result (IsSeenAs change.Nothing (F.modelled folder.old) (F.past folder.old) (F.modelled folder.new) (F.past folder.new) true) }
{
    sync_changed(folder, alloc, changed)
}
