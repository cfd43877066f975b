// The names of a store's files that are there.
ghost use Rattle.std.specs.Prelude.{◌≡◌, true, false, None, IfOk, IfSome, IfNone, OnOk};
ghost use Rattle.std.specs.BTreeSet.{Updates};
ghost use Rattle.file_paths.specs.Paths.{path_text, IsStoreFile};
ghost use Rattle.folder_model.specs.Paths.{folder_at};
ghost use Rattle.folder_model.specs.Calls.{IfModelled, IsLocked};
ghost use Rattle.folder_disk.specs.Files.{IsSoundSystem};
ghost use Rattle.folder_disk.specs.Folders.{folder_text};
ghost use Rattle.folder_disk.specs.Names.{AddsFiles, AreFileNames, IsNextName};
ghost use Rattle.folder_disk.specs.Over.{HasFolders};

use crate::folder_name::{FolderName, known_folder};
use crate::listing::folders_there;
use disk_model::FileName;
use file_paths::name_of_path;
use folder_model::{CallError, Folder, Kind};
use std::alloc::Global;
use std::collections::BTreeSet;
use std::ops::Bound;

/// Adds a name to a set.
fn insert(names: &mut BTreeSet<FileName>, name: FileName) -> Result<(), CallError>
    ensures { OnOk result (Updates ⟦<FileName as Ord>⟧.cmp names.old names.new name true) }
{
    match names.insert(name) {
        Ok(_) => Ok(()),
        Err(_) => Err(CallError::Failed),
    }
}

/// Adds the name of a store's file, if one stands at its path.
fn add_named<F: Folder>(
    folder: &mut F,
    names: &mut BTreeSet<FileName>,
    path: &str,
    name: FileName,
) -> Result<(), CallError>
    requires locked { IsLocked (F.modelled folder.old) }
    requires sound { IsSoundSystem (F.modelled folder.old) }
    requires file { IsStoreFile name }
    requires named { path.now ≡ path_text name }
    ensures added { OnOk result (IfModelled (F.modelled folder.old) (λ s. AddsFiles ⟦<FileName as Ord>⟧.cmp (λ p. p ≡ path.now) s names.old names.new)) }
    ensures same { F.modelled folder.new ≡ F.modelled folder.old }
    ensures still { F.past folder.new ≡ F.past folder.old }
{
    match folder.look(path)? {
        Kind::File => insert(names, name),
        _ => Ok(()),
    }
}

/// Adds the name of the file at a path, if a store's file stands there.
fn add_file<F: Folder>(
    folder: &mut F,
    names: &mut BTreeSet<FileName>,
    path: &str,
) -> Result<(), CallError>
    requires locked { IsLocked (F.modelled folder.old) }
    requires sound { IsSoundSystem (F.modelled folder.old) }
    ensures added { OnOk result (IfModelled (F.modelled folder.old) (λ s. AddsFiles ⟦<FileName as Ord>⟧.cmp (λ p. p ≡ path.now) s names.old names.new)) }
    ensures same { F.modelled folder.new ≡ F.modelled folder.old }
    ensures still { F.past folder.new ≡ F.past folder.old }
{
    match name_of_path(path.as_bytes()) {
        Some(name) => add_named(folder, names, path, name),
        None => Ok(()),
    }
}

/// Adds the names of a store's files that stand in a folder.
fn add_files<F: Folder>(
    folder: &mut F,
    alloc: Global,
    names: &mut BTreeSet<FileName>,
    within: FolderName,
) -> Result<(), CallError>
    requires locked { IsLocked (F.modelled folder.old) }
    requires sound { IsSoundSystem (F.modelled folder.old) }
    ensures added { OnOk result (IfModelled (F.modelled folder.old) (λ s. AddsFiles ⟦<FileName as Ord>⟧.cmp (λ p. folder_at p ≡ folder_text within) s names.old names.new)) }
    ensures same { F.modelled folder.new ≡ F.modelled folder.old }
    ensures still { F.past folder.new ≡ F.past folder.old }
{
    known_folder(within);
    let path = within.path(alloc)?;
    let paths = folder.paths_in(path.as_str())?;
    for path in &paths {
        add_file(folder, names, path.as_str())?;
    }
    Ok(())
}

/// The names of the store's files that are there. Other files are passed over.
pub(crate) fn names_there<F: Folder>(
    folder: &mut F,
    alloc: Global,
) -> Result<BTreeSet<FileName>, CallError>
    requires locked { IsLocked (F.modelled folder.old) }
    requires sound { IsSoundSystem (F.modelled folder.old) }
    ensures are { IfOk result (λ names. IfModelled (F.modelled folder.old) (λ s. HasFolders s → AreFileNames ⟦<FileName as Ord>⟧.cmp s names)) }
    ensures same { F.modelled folder.new ≡ F.modelled folder.old }
    ensures still { F.past folder.new ≡ F.past folder.old }
{
    let folders = folders_there(folder, alloc)?;
    let mut names = BTreeSet::new(alloc);
    for within in &folders {
        add_files(folder, alloc, &mut names, *within)?;
    }
    Ok(names)
}

/// The least name that is greater than this one, or the least of all.
pub(crate) fn next_in(names: &BTreeSet<FileName>, after: Option<FileName>) -> Option<FileName>
    ensures { IsNextName ⟦<FileName as Ord>⟧.cmp after result names.now }
{
    let Some(after) = after else {
        return names.first().copied();
    };
    names
        .range((Bound::Excluded(after), Bound::Unbounded))
        .next()
        .copied()
}

/// The names with one more, where they are known and there is memory for it.
pub(crate) fn with_name(
    known: Option<BTreeSet<FileName>>,
    name: FileName,
) -> Option<BTreeSet<FileName>>
    ensures names { IfSome result (λ names. IfSome known (λ before. Updates ⟦<FileName as Ord>⟧.cmp before names name true)) }
    ensures known { IfNone known (result ≡ None) }
{
    let mut names = known?;
    match names.insert(name) {
        Ok(_) => Some(names),
        Err(_) => None,
    }
}

/// The names without one, where they are known.
pub(crate) fn without_name(
    known: Option<BTreeSet<FileName>>,
    name: FileName,
) -> Option<BTreeSet<FileName>>
    ensures names { IfSome result (λ names. IfSome known (λ before. Updates ⟦<FileName as Ord>⟧.cmp before names name false)) }
    ensures known { IfNone known (result ≡ None) }
{
    let mut names = known?;
    names.remove(&name);
    Some(names)
}
