// The paths of what stands in a folder.
ghost use Rattle.std.specs.Prelude.{◌≡◌, ◌++◌, ◌∷◌, [], Some, None, List, ℕ, map, Contains, string_bytes, IfOk, OnOk, IfSome, IfNone, IsTrue};
ghost use Rattle.folder_model.specs.System.{ArePathsIn, StandsIn};
ghost use Rattle.folder_mem.specs.Notes.{system_after};
ghost use Rattle.folder_mem.specs.Listing.{path_made, AllStandIn};

use crate::note::Change;
use crate::path::{is_in, same_path};
use crate::seen::{Thing, seen_path};
use mdbox_base::NoMemory;
use std::alloc::Global;

/// The paths of what stands in a folder after these changes.
pub fn paths_below(alloc: Global, changes: &[Change], folder: &str) -> Result<Vec<String>, NoMemory>
    ensures { IfOk result (λ paths. ArePathsIn (system_after changes.now) folder.now (map string_bytes paths.items)) }
{
    let mut paths = Vec::new(alloc);
    for change in changes {
        add_made(alloc, &mut paths, changes, folder, change)?;
    }
    Ok(paths)
}

/// Adds the path at which a change made something, where it stands in the folder.
fn add_made(
    alloc: Global,
    paths: &mut Vec<String>,
    changes: &[Change],
    folder: &str,
    change: &Change,
) -> Result<(), NoMemory>
    ensures stand { OnOk result (AllStandIn (system_after changes.now) folder.now (map string_bytes paths.old.items) → AllStandIn (system_after changes.now) folder.now (map string_bytes paths.new.items)) }
    ensures kept { OnOk result ((path : List ℕ) → Contains (map string_bytes paths.old.items) path → Contains (map string_bytes paths.new.items) path) }
    ensures added { OnOk result ((path : List ℕ) → path_made change.now ≡ Some path → StandsIn (system_after changes.now) folder.now path → Contains (map string_bytes paths.new.items) path) }
{
    match change {
        Change::MadeFile(path) | Change::MadeFolder(path) => {
            if stands_in(changes, folder, path.as_str()) {
                paths.push(String::from_str(alloc, path.as_str())?)?;
            }
        }
        Change::Locked
        | Change::Ended
        | Change::Removed(_)
        | Change::Written(_, _, _)
        | Change::Cut(_, _)
        | Change::Synced(_)
        | Change::NamesSynced(_)
        | Change::SyncFailed => {}
    }
    Ok(())
}

/// Whether something stands at a path, in this folder.
fn stands_in(changes: &[Change], folder: &str, path: &str) -> bool
    ensures yes { IsTrue result → StandsIn (system_after changes.now) folder.now path.now }
    ensures no { StandsIn (system_after changes.now) folder.now path.now → IsTrue result }
{
    if !is_in(path, folder) {
        return false;
    }
    if same_path(path, ".") {
        return false;
    }
    match seen_path(changes, path).thing {
        Thing::Nothing => false,
        Thing::File(_) | Thing::Folder => true,
    }
}
