// A run over the files of a folder.
ghost use Rattle.std.specs.Prelude.{[], ◌≤◌, map, string_bytes, IfOk};
ghost use Rattle.folder_model.specs.Calls.{IfModelled};
ghost use Rattle.folder_disk.specs.Over.{HasBegun, IsStoreSystem, told_history};
ghost use Rattle.mdbox_top.specs.Run.{EndsOver, Notes, RunOutcome, Moments, Rests, HasStatus, MayHaveFailed};
ghost use Rattle.request_text.specs.Commands.{Says};
ghost use Rattle.request_text.specs.declared.command.Command.{Command};

use crate::exits::run;
use disk_model::Disk;
use folder_disk::FolderDisk;
use folder_kept::KeptFolder;
use folder_model::Folder;
use mdbox_base::{Clock, NoMemory, Sink, Source};
use request_text::Status;
use std::alloc::Global;
use std::sync::Wait;
use std::thread::Threads;

/// Runs the words over the files of a folder, and answers the status of that run. Over a folder that is modelled, all that
/// `mdbox_run` says of a disk's content is so of the disk over it, which begins as the folder stands.
pub fn run_in<
    R: Threads + Wait + Sync,
    F: Folder + Drop + Send,
    I: Source,
    O: Sink,
    E: Sink,
    C: Clock,
>(
    rt: &R,
    alloc: Global,
    words: Result<Vec<String>, NoMemory>,
    folder: F,
    input: &mut I,
    output: &mut O,
    errors: &mut E,
    clock: &mut C,
) -> (Status, FolderDisk<KeptFolder<F>>)
where
    F::File: Send + Sync,
    requires begun { HasBegun (F.Folder.modelled folder) (F.Folder.past folder) }
    requires store { IfModelled (F.Folder.modelled folder) IsStoreSystem }
    ensures run { IfOk words (λ given. (command : Command) → Says (map string_bytes given.items) command
        → RunOutcome (EndsOver result.1 command (I.left input.old) (C.time clock.old) (O.held output.old) (O.held output.new)
        (told_history (F.Folder.modelled folder) []) (⟦<FolderDisk<KeptFolder<F>> as Disk>⟧.history result.1) (record { reads = 0; changes = 0 }) (⟦<FolderDisk<KeptFolder<F>> as Disk>⟧.faults result.1)) (Notes command (⟦<FolderDisk<KeptFolder<F>> as Disk>⟧.history result.1)) (result.0.0) (E.held errors.old) (E.faults errors.old) (E.held errors.new) (E.faults errors.new)) }
    ensures moments { IfOk words (λ given. (command : Command) → Says (map string_bytes given.items) command
        → Moments command (I.left input.old) (C.time clock.old) (told_history (F.Folder.modelled folder) []) (⟦<FolderDisk<KeptFolder<F>> as Disk>⟧.history result.1)) }
    ensures rests { IfOk words (λ given. (command : Command) → Says (map string_bytes given.items) command
        → Rests command (I.left input.old) (C.time clock.old) (MayHaveFailed command (result.0.0)) (record { reads = 0; changes = 0 }) (⟦<FolderDisk<KeptFolder<F>> as Disk>⟧.faults result.1) (told_history (F.Folder.modelled folder) []) (⟦<FolderDisk<KeptFolder<F>> as Disk>⟧.history result.1)) }
    ensures status { IfOk words (λ given. (command : Command) → Says (map string_bytes given.items) command → HasStatus command (I.left input.old) (told_history (F.Folder.modelled folder) []) (result.0.0)) }
    ensures known { result.0.0 ≤ 8 }
{
    run(
        rt,
        alloc,
        words,
        FolderDisk::of(KeptFolder::of(folder, alloc), alloc),
        input,
        output,
        errors,
        clock,
    )
}
