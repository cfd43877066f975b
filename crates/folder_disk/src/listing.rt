// What stands in a store's folders.
ghost use Rattle.std.specs.Prelude.{◌≡◌, ◌≢◌, ◌<◌, ℕ, ◌++◌, [], ◌∷◌, All, Contains, IfOk, IfSome, IfNone, OnOk, OnErr, codes};
ghost use Rattle.hex.specs.Hex.{encode_lower};
ghost use Rattle.folder_model.specs.System.{AFolder, Another};
ghost use Rattle.folder_model.specs.Calls.{IfModelled, IsLocked};
ghost use Rattle.folder_disk.specs.Files.{IsSoundSystem};
ghost use Rattle.folder_disk.specs.Folders.{folder_text, KeepsAll, HasFoldersOf, HasAllFolders, HasOctetNames, StandInFolders};

use crate::folder_name::{FolderName, known_folder};
use crate::folders::kind_of;
use file_paths::octet_of;
use folder_model::{CallError, Folder, Kind};
use std::alloc::Global;

/// Adds a value at the end of a list.
fn add<T: Drop>(list: &mut Vec<T>, value: T) -> Result<(), CallError>
    ensures { OnOk result (list.new.items ≡ list.old.items ++ value ∷ []) }
{
    match list.push(value) {
        Ok(()) => Ok(()),
        Err(_) => Err(CallError::Failed),
    }
}

/// The octet that the last part of a path in this folder spells.
fn octet_at(path: &[u8], above: &[u8]) -> Option<u8>
    ensures some { IfSome result (λ octet. path.now ≡ above.now ++ (codes "/" ++ encode_lower (octet ∷ []))) }
    ensures none { IfNone result ((octet : ℕ) → octet < 256 → path.now ≡ above.now ++ (codes "/" ++ encode_lower (octet ∷ [])) → ⊥) }
{
    octet_of(path.strip_prefix(above)?.strip_prefix(b"/")?)
}

/// Adds the octet that the last part of a path in this folder spells, if it spells one.
fn add_octet(octets: &mut Vec<u8>, path: &[u8], above: &[u8]) -> Result<(), CallError>
    ensures keeps { OnOk result (KeepsAll octets.old.items octets.new.items) }
    ensures added { OnOk result ((octet : ℕ) → octet < 256 → path.now ≡ above.now ++ (codes "/" ++ encode_lower (octet ∷ [])) → Contains octets.new.items octet) }
{
    match octet_at(path, above) {
        Some(octet) => add(octets, octet),
        None => Ok(()),
    }
}

/// The octets that names in a folder spell.
fn octets_in<F: Folder>(
    folder: &mut F,
    alloc: Global,
    name: FolderName,
) -> Result<Vec<u8>, CallError>
    requires locked { IsLocked (F.modelled folder.old) }
    requires sound { IsSoundSystem (F.modelled folder.old) }
    ensures all { IfOk result (λ octets. IfModelled (F.modelled folder.old) (λ s. HasOctetNames s (folder_text name) octets.items)) }
    ensures same { F.modelled folder.new ≡ F.modelled folder.old }
    ensures still { F.past folder.new ≡ F.past folder.old }
{
    known_folder(name);
    let above = name.path(alloc)?;
    let paths = folder.paths_in(above.as_str())?;
    let mut octets = Vec::new(alloc);
    for path in &paths {
        add_octet(&mut octets, path.as_bytes(), above.as_bytes())?;
    }
    Ok(octets)
}

/// Adds a folder, if it is there. A link in its place is an error: the names in the folder to which it leads would never be synced.
fn add_there<F: Folder>(
    folder: &mut F,
    alloc: Global,
    names: &mut Vec<FolderName>,
    name: FolderName,
) -> Result<(), CallError>
    requires locked { IsLocked (F.modelled folder.old) }
    requires sound { IsSoundSystem (F.modelled folder.old) }
    ensures keeps { OnOk result (KeepsAll names.old.items names.new.items) }
    ensures there { OnOk result (IfModelled (F.modelled folder.old) (λ s. s.node (folder_text name) ≡ AFolder → Contains names.new.items name)) }
    ensures other { OnOk result (IfModelled (F.modelled folder.old) (λ s. s.node (folder_text name) ≢ Another)) }
    ensures same { F.modelled folder.new ≡ F.modelled folder.old }
    ensures still { F.past folder.new ≡ F.past folder.old }
{
    match kind_of(folder, alloc, name)? {
        Kind::Folder => { add(names, name) }
        Kind::Other => Err(CallError::Failed),
        _ => Ok(()),
    }
}

/// Adds an outer folder of instances and those in it, if they are there.
fn add_outer<F: Folder>(
    folder: &mut F,
    alloc: Global,
    names: &mut Vec<FolderName>,
    outer: u8,
) -> Result<(), CallError>
    requires locked { IsLocked (F.modelled folder.old) }
    requires sound { IsSoundSystem (F.modelled folder.old) }
    ensures keeps { OnOk result (KeepsAll names.old.items names.new.items) }
    ensures outer { OnOk result (IfModelled (F.modelled folder.old) (λ s. HasFoldersOf s outer names.new.items)) }
    ensures same { F.modelled folder.new ≡ F.modelled folder.old }
    ensures still { F.past folder.new ≡ F.past folder.old }
{
    add_there(folder, alloc, names, FolderName::Outer(outer))?;
    let octets = octets_in(folder, alloc, FolderName::Outer(outer))?;
    for inner in &octets {
        add_there(folder, alloc, names, FolderName::Inner(outer, *inner))?;
    }
    Ok(())
}

/// The folders in which files of a store may stand, of those that are there, and those above them.
pub(crate) fn folders_there<F: Folder>(
    folder: &mut F,
    alloc: Global,
) -> Result<Vec<FolderName>, CallError>
    requires locked { IsLocked (F.modelled folder.old) }
    requires sound { IsSoundSystem (F.modelled folder.old) }
    ensures all { IfOk result (λ names. IfModelled (F.modelled folder.old) (λ s. StandInFolders s → HasAllFolders s names.items)) }
    ensures same { F.modelled folder.new ≡ F.modelled folder.old }
    ensures still { F.past folder.new ≡ F.past folder.old }
{
    let mut names = Vec::new(alloc);
    add(&mut names, FolderName::Top)?;
    add_there(folder, alloc, &mut names, FolderName::Storage)?;
    add_there(folder, alloc, &mut names, FolderName::Mailboxes)?;
    add_there(folder, alloc, &mut names, FolderName::Attachments)?;
    let octets = octets_in(folder, alloc, FolderName::Attachments)?;
    for outer in &octets {
        add_outer(folder, alloc, &mut names, *outer)?;
    }
    Ok(names)
}
