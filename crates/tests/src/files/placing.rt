// A storage file that is made and added to, with a call that fails or a crash at each of its calls.
ghost use Rattle.std.specs.Prelude.{◌≡◌, true, None, Some, IfOk};
ghost use Rattle.disk_mem.specs.Mem.{told};
ghost use Rattle.storage_files.specs.Files.{end_in, is_taken_in};
ghost use Rattle.storage_files.specs.OnDisk.{IsAsKnown};

use crate::stores::{each_crash, file_octets};
use disk_mem::{Choice, MemDisk};
use disk_model::{Disk, DiskError, FileName};
use mdbox_base::{FileNo, NoMemory, Seq};
use std::alloc::Global;
use std::test::Fail;
use storage_files::{DiskFault, MailFiles, Take};

const NAME: FileName = FileName::Mail(1);

const HEADER: &[u8] = b"2 M1e C0\n";

const REGION: &[u8] = b"a message";

const BOTH: &[u8] = b"2 M1e C0\na message";

/// A new file that was taken, on a disk whose call of this number fails.
fn taken(alloc: Global, call: u64) -> Result<(MemDisk, MailFiles), NoMemory>
    ensures taken { IfOk result (λ made. is_taken_in 1 made.1.files ≡ true) }
    ensures absent { IfOk result (λ made. end_in 1 made.1.files ≡ None) }
    ensures known { IfOk result (λ made. IsAsKnown made.1.files 1 (Some (told made.0))) }
{
    let mut files = MailFiles::of(alloc, Seq::empty(alloc), 0)?;
    files.reserve(1)?;
    match files.take_for(100) {
        Take::New(FileNo(1)) => {
            let disk = MemDisk::fresh(alloc)?;
            Ok((disk.failing(Seq::of(vec![in alloc; call]?)), files))
        }
        _ => Err(NoMemory),
    }
}

/// Makes the file with its header, by four calls, and adds a region, by two. Answers the region's place.
fn make_and_place(disk: &mut MemDisk, files: &mut MailFiles) -> Result<u32, DiskFault>
    requires taken { is_taken_in 1 files.old.files ≡ true }
    requires absent { end_in 1 files.old.files ≡ None }
    requires known { IsAsKnown files.old.files 1 (Some (told disk.old)) }
{
    files.make_file(disk, FileNo(1), HEADER)?;
    files.place_texts(disk, FileNo(1), b"", REGION, b"")
}

/// What a crash leaves of the file when so many of the six calls had run: made, written, synced, its name synced; added to,
/// synced.
fn left(run: u64, choice: Choice) -> Option<&'static [u8]> {
    match (run, choice) {
        (0, _) | (1..=3, Choice::Old) => None,
        (1, _) => Some(b""),
        (2, Choice::Torn(1)) => Some(b"\x01\x01\x01\x01\x01\x01\x01\x01\x01"),
        (2, Choice::Torn(_)) => Some(b"\xff\xff\xff\xff\xff\xff\xff\xff\xff"),
        (2..=4, _) | (5, Choice::Old) => Some(HEADER),
        (5, Choice::Torn(1)) => Some(b"2 M1e C0\n\x01\x01\x01\x01\x01\x01\x01\x01\x01"),
        (5, Choice::Torn(_)) => Some(b"2 M1e C0\n\xff\xff\xff\xff\xff\xff\xff\xff\xff"),
        _ => Some(BOTH),
    }
}

#[test]
fn what_a_crash_leaves(rt: HostRuntime) -> Result<(), Fail> {
    let (mut disk, mut files) = taken(rt.alloc(), 0)?;
    assert_eq!(rt; make_and_place(&mut disk, &mut files), Ok(9));
    assert_eq!(rt; files.end_of(FileNo(1)), Some(18));
    assert_eq!(rt; disk.calls(), 6);
    let mut piece = [0; 4];
    assert_eq!(rt;
        files.read_piece(&mut disk, FileNo(1), 16, &mut piece),
        Ok(2)
    );
    assert_eq!(rt; piece, *b"ge\0\0");
    assert_eq!(rt;
        files.read_piece(&mut disk, FileNo(2), 0, &mut piece),
        Ok(0)
    );
    each_crash(rt.alloc(), &disk, 0, |mut image, run, choice| {
        match left(run, choice) {
            Some(octets) => {
                let found = file_octets(rt.alloc(), &mut image, NAME)?;
                assert_eq!(rt; found.as_slice(), octets, "{run} run, {choice:?}");
            }
            None => {
                let length = image.length(NAME);
                assert_eq!(rt; length, Err(DiskError::Absent), "{run} run, {choice:?}");
            }
        }
        Ok(())
    })?;
    if files.pins_of(FileNo(1)) == 0 {
        files.remove_file(&mut disk, FileNo(1))?;
    }
    assert_eq!(rt; disk.length(NAME), Err(DiskError::Absent));
    assert_eq!(rt; files.end_of(FileNo(1)), None);
    Ok(())
}

/// The end that is known of the file when this call had failed.
fn known_end(failed: u64) -> Option<u64> {
    if failed <= 4 { None } else { Some(9) }
}

#[test]
fn each_call_fails_in_turn(rt: HostRuntime) -> Result<(), Fail> {
    for failed in 1..=6 {
        let (mut disk, mut files) = taken(rt.alloc(), failed)?;
        assert_eq!(rt; make_and_place(&mut disk, &mut files), Err(DiskFault));
        assert_eq!(rt; files.end_of(FileNo(1)), known_end(failed));
        assert_eq!(rt; disk.calls(), failed);
        each_crash(rt.alloc(), &disk, 0, |mut image, run, choice| {
            let length = image.length(NAME).unwrap_or(0);
            assert!(rt; length <= 18, "call {failed}, {run} run, {choice:?}");
            if failed > 4 && run >= 4 {
                let found = file_octets(rt.alloc(), &mut image, NAME)?;
                assert!(rt;
                    found.starts_with(HEADER),
                    "call {failed}, {run} run, {choice:?}"
                );
            } else {
                assert!(rt; length <= 9, "call {failed}, {run} run, {choice:?}");
            }
            Ok(())
        })?;
    }
    Ok(())
}
