// Which storage files a purge takes.
ghost use Rattle.std.specs.Prelude.{◌≡◌, ◌≤◌, ◌<◌, ◌+◌, ◌||◌, ◌&&◌, ◌⊎◌, ℕ, not, true, false, length, All, Contains, IsTrue, IsSome, IfSome, IfNone, IfOk, IfErr, OnOk, IsErrOf, ◌++◌, ◌∷◌, []};
ghost use Rattle.disk_model.specs.Disk.{IsIdle};
ghost use Rattle.disk_model.specs.FaultCounts.{NoFault, ReadFaultCounted};
ghost use Rattle.mdbox_base.specs.declared.replies.Refusal.TheVariants as refusal;
ghost use Rattle.model_meaning.specs.MapMeaning.{greatest};
ghost use Rattle.storage_files.specs.Files.{end_in, is_doomed_in, is_emptied_in, is_sealed_in, is_taken_in};
ghost use Rattle.purge_task.specs.Found.{AreUncleanFound, HasFound, IsFindRefusal, IsFileFound, IsReadRefusal, IsVisited, targets_in};
ghost use Rattle.purge_task.specs.declared.finding.FoundFile.{FoundFile as FoundFileValue};

use crate::contents::Contents;
use disk_model::Disk;
use mdbox_base::{FileNo, LAST_NUMBER, Refusal};
use store_core::Store;

/// The header of a target: messages' headers of 30 octets, and the time 0.
pub const TARGET_HEADER: &[u8] = b"2 M1e C0\n";

/// How many octets messages have at the most that have room in a target.
const ROOM: u64 = 4_294_967_285;

/// A storage file that a purge takes, and whether a message of it is wanted.
#[derive(Clone, Copy, Debug, PartialEq, Eq)]
pub struct FoundFile {
    pub file: FileNo,
    pub is_wanted: bool,
    /// How many messages it has.
    pub messages: usize,
    /// How many octets the wanted ones have.
    pub octets: u64,
}

/// The storage files that a purge takes, in order of number.
#[derive(Drop)]
pub struct Found {
    pub files: Vec<FoundFile>,
    /// How many of them have wanted messages.
    pub targets: u32,
    /// How many messages one of them has at the most.
    pub most: usize,
}

impl Found {
    /// Finds the files that nobody has taken, and that are neither sealed, doomed nor clean. Refused if there are no numbers
    /// for their targets, or a target would be too long.
    pub fn of<D: Disk>(store: &mut Store<D>) -> Result<Found, Refusal>
        requires running { store.old.stopped ≡ false }
        ensures found { IfOk result (HasFound store.old (D.history store.old.disk)) }
        ensures refused { IfErr result (IsFindRefusal store.old (D.history store.old.disk)) }
        ensures same { store.new ≡ record store.old { disk = store.new.disk } }
        ensures idle { IsIdle (D.history store.old.disk) (D.history store.new.disk) }
        ensures fault { ReadFaultCounted (IsErrOf result refusal.ReadFault) (D.faults store.old.disk) (D.faults store.new.disk) }
        ensures unfailed { (IsErrOf result refusal.ReadFault → ⊥) → NoFault (D.faults store.old.disk) (D.faults store.new.disk) }
    {
        let files = unclean_files(store)?;
        store.facts();
        let listed = files.as_slice();
        match count_targets(listed, store.drawn_file()) {
            Some(targets) => {
                let most = most_messages(listed);
                Ok(Found {
                    files,
                    targets,
                    most,
                })
            }
            None => Err(Refusal::StoreFull(u64::from(LAST_NUMBER))),
        }
    }
}

/// The files that a purge takes.
fn unclean_files<D: Disk>(store: &mut Store<D>) -> Result<Vec<FoundFile>, Refusal>
    requires running { store.old.stopped ≡ false }
    ensures found { IfOk result (λ files. AreUncleanFound store.old (D.history store.old.disk) files.items) }
    ensures refused { IfErr result IsReadRefusal }
    ensures same { store.new ≡ record store.old { disk = store.new.disk } }
    ensures idle { IsIdle (D.history store.old.disk) (D.history store.new.disk) }
    ensures fault { ReadFaultCounted (IsErrOf result refusal.ReadFault) (D.faults store.old.disk) (D.faults store.new.disk) }
    ensures unfailed { (IsErrOf result refusal.ReadFault → ⊥) → NoFault (D.faults store.old.disk) (D.faults store.new.disk) }
{
    store.facts();
    let mut files = Vec::new(store.alloc());
    let mut after = None;
    while let Some(file) = store.next_file(after) {
        visit(store, &mut files, file)?;
        after = Some(file);
    }
    Ok(files)
}

/// Looks at a file, and lists it if a purge takes it.
fn visit<D: Disk>(
    store: &mut Store<D>,
    files: &mut Vec<FoundFile>,
    file: FileNo,
) -> Result<(), Refusal>
    requires running { store.old.stopped ≡ false }
    requires there { IsSome (end_in file.0 store.old.files.files) }
    ensures visited { OnOk result (IsVisited store.old (D.history store.old.disk) file.0 files.old.items files.new.items) }
    ensures refused { IfErr result IsReadRefusal }
    ensures same { store.new ≡ record store.old { disk = store.new.disk } }
    ensures idle { IsIdle (D.history store.old.disk) (D.history store.new.disk) }
    ensures fault { ReadFaultCounted (IsErrOf result refusal.ReadFault) (D.faults store.old.disk) (D.faults store.new.disk) }
    ensures unfailed { (IsErrOf result refusal.ReadFault → ⊥) → NoFault (D.faults store.old.disk) (D.faults store.new.disk) }
{
    match find_file(store, file)? {
        Some(found) => add_found(files, found),
        None => Ok(()),
    }
}

fn add_found(files: &mut Vec<FoundFile>, found: FoundFile) -> Result<(), Refusal>
    ensures ok { OnOk result (files.new.items ≡ files.old.items ++ found ∷ []) }
    ensures err { IfErr result (λ why. why ≡ refusal.NoMemory) }
{
    match files.push(found) {
        Ok(()) => Ok(()),
        Err(_) => Err(Refusal::NoMemory),
    }
}

/// What is found of one file. None if a purge passes over it.
fn find_file<D: Disk>(store: &mut Store<D>, file: FileNo) -> Result<Option<FoundFile>, Refusal>
    requires running { store.old.stopped ≡ false }
    requires there { IsSome (end_in file.0 store.old.files.files) }
    ensures found { IfOk result (IsFileFound store.old (D.history store.old.disk) file.0) }
    ensures refused { IfErr result IsReadRefusal }
    ensures same { store.new ≡ record store.old { disk = store.new.disk } }
    ensures idle { IsIdle (D.history store.old.disk) (D.history store.new.disk) }
    ensures fault { ReadFaultCounted (IsErrOf result refusal.ReadFault) (D.faults store.old.disk) (D.faults store.new.disk) }
    ensures unfailed { (IsErrOf result refusal.ReadFault → ⊥) → NoFault (D.faults store.old.disk) (D.faults store.new.disk) }
{
    if !is_free(store, file) {
        return Ok(None);
    }
    store.facts();
    let contents = Contents::of(store.map(), file);
    if contents.is_clean(store, file)? {
        return Ok(None);
    }
    Ok(Some(FoundFile {
        file,
        is_wanted: contents.wanted > 0,
        messages: contents.messages,
        octets: contents.wanted,
    }))
}

/// Whether a purge may take a file.
fn is_free<D: Disk>(store: &Store<D>, file: FileNo) -> bool
    ensures { result ≡ (not (is_taken_in file.0 store.now.files.files || is_emptied_in file.0 store.now.files.files) && not (is_doomed_in file.0 store.now.files.files) && not (is_sealed_in file.0 store.now.files.files)) }
{
    !store.is_taken(file) && !store.is_doomed(file) && !store.is_sealed(file)
}

/// How many targets the files need, behind the numbers that were drawn. None if so many numbers aren't left, or a target would
/// be too long.
fn count_targets(files: &[FoundFile], drawn: u32) -> Option<u32>
    requires { drawn ≤ 4294967294 }
    ensures some { IfSome result (λ targets. (targets ≡ targets_in files.now) × (drawn + targets ≤ 4294967294) × All (λ f. 9 + f.octets ≤ 4294967294) files.now) }
    ensures none { IfNone result ((4294967294 < drawn + targets_in files.now) ⊎ ((f : FoundFileValue) × Contains files.now f × (4294967294 < 9 + f.octets))) }
{
    for found in files {
        if found.octets > ROOM {
            return None;
        }
    }
    let targets = files.iter().filter(|found| found.is_wanted).count();
    if targets > (LAST_NUMBER - drawn) as usize {
        return None;
    }
    Some(targets as u32)
}

/// How many messages one of the files has at the most.
fn most_messages(files: &[FoundFile]) -> usize
    ensures { result ≡ greatest (λ f. f.messages) files.now }
{
    let mut most = 0;
    for found in files {
        most = most.max(found.messages);
    }
    most
}
