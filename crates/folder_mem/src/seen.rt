// What calls see, by the changes so far.
ghost use Rattle.std.specs.Prelude.{◌≡◌, ◌<◌, ◌≤◌, ◌+◌, ◌^◌, length, IfOk, OnOk};
ghost use Rattle.folder_model.specs.System.{System};
ghost use Rattle.folder_mem.specs.Notes.{changes_to, empty_system, system_after};
ghost use Rattle.folder_mem.specs.Seen.{IsSeenFile, IsSeenPath, node_of};

use crate::note::Change;
use crate::path::same_path;
use crate::text::Text;
use mdbox_base::NoMemory;
use std::alloc::Global;

/// What stands at a path, a file by its number.
#[derive(Clone, Copy, Debug, PartialEq, Eq)]
pub enum Thing {
    Nothing,
    File(u64),
    Folder,
}

/// What stands at a path, and how many files were made.
#[derive(Clone, Copy)]
pub struct SeenPath {
    pub thing: Thing,
    pub count: u64,
}

/// A file's octets, and how many files were made.
#[derive(Drop)]
pub struct SeenFile {
    pub text: Text,
    pub count: u64,
}

impl SeenPath {
    /// Follows a change.
    fn follow(&mut self, path: &str, change: &Change)
        requires { self.old.count < 2 ^ 63 }
        ensures seen { (s : System) → IsSeenPath path.now self.old s → IsSeenPath path.now self.new (changes_to change.now s) }
        ensures count { self.new.count ≤ self.old.count + 1 }
    {
        match change {
            Change::MadeFile(own) => {
                if same_path(path, own.as_str()) {
                    self.thing = Thing::File(self.count);
                }
                self.count += 1;
            }
            Change::MadeFolder(own) => {
                if same_path(path, own.as_str()) {
                    self.thing = Thing::Folder;
                }
            }
            Change::Removed(own) => {
                if same_path(path, own.as_str()) {
                    self.thing = Thing::Nothing;
                }
            }
            Change::Locked
            | Change::Ended
            | Change::Written(_, _, _)
            | Change::Cut(_, _)
            | Change::Synced(_)
            | Change::NamesSynced(_)
            | Change::SyncFailed => {}
        }
    }
}

/// What stands at a path in an empty folder.
fn first_thing(path: &str) -> Thing
    ensures { node_of result ≡ empty_system.node path.now }
{
    if same_path(path, ".") {
        Thing::Folder
    } else {
        Thing::Nothing
    }
}

/// What stands at a path after these changes.
pub fn seen_path(changes: &[Change], path: &str) -> SeenPath
    ensures { IsSeenPath path.now result (system_after changes.now) }
{
    let mut seen = SeenPath {
        thing: first_thing(path),
        count: 0,
    };
    for change in changes {
        seen.follow(path, change);
    }
    seen
}

impl SeenFile {
    /// Follows a change.
    fn follow(&mut self, number: u64, change: &Change) -> Result<(), NoMemory>
        requires { self.old.count < 2 ^ 63 }
        ensures seen { OnOk result ((s : System) → IsSeenFile number self.old s → IsSeenFile number self.new (changes_to change.now s)) }
        ensures count { self.new.count ≤ self.old.count + 1 }
    {
        match change {
            Change::MadeFile(_) => {
                if number == self.count {
                    self.text.cut(0);
                }
                self.count += 1;
            }
            Change::Written(own, at, text) => {
                if number == *own {
                    let at = (*at as usize).min(self.text.octets.len());
                    self.text.overlay(at, &text.octets)?;
                }
            }
            Change::Cut(own, end) => {
                if number == *own {
                    self.text.cut(*end as usize);
                }
            }
            Change::Locked
            | Change::Ended
            | Change::MadeFolder(_)
            | Change::Removed(_)
            | Change::Synced(_)
            | Change::NamesSynced(_)
            | Change::SyncFailed => {}
        }
        Ok(())
    }
}

/// A file after these changes.
pub fn seen_file(alloc: Global, changes: &[Change], number: u64) -> Result<SeenFile, NoMemory>
    ensures { IfOk result (λ seen. IsSeenFile number seen (system_after changes.now)) }
{
    let mut seen = SeenFile {
        text: Text::empty(alloc),
        count: 0,
    };
    for change in changes {
        seen.follow(number, change)?;
    }
    Ok(seen)
}
