// Instances that are placed, with a call that fails or a crash at each call.
use crate::instances::saving::{ABC, foreign, has_octets, instance_id, none_known, save};
use crate::stores::{each_crash, put_file};
use disk_mem::{Choice, MemDisk};
use disk_model::{Disk, DiskError, FileName};
use file_paths::path_of;
use mdbox_base::{Hash, InstId, Seq};
use sis_store::PlaceFault;
use std::test::Fail;

/// The path of instance 1 of `abc`.
const PATH: &[u8] =
    b"attachments/a9/99/a9993e364706816aba3e25717850c26c9cd0d89d-0011223344556677ffffffff00000001";

const OTHER: Hash = Hash([7; 20]);

const FOREIGN: InstId = InstId(*b"id of sixteen oc");

#[test]
fn numbers_count_upwards(rt: HostRuntime) -> Result<(), Fail> {
    let mut disk = MemDisk::fresh(rt.alloc())?;
    let mut instances = none_known(rt.alloc(), 0)?;
    assert_eq!(rt;
        save(&mut disk, &mut instances, ABC, b"abc"),
        Ok(instance_id(1))
    );
    assert_eq!(rt;
        save(&mut disk, &mut instances, OTHER, b"other"),
        Ok(instance_id(2))
    );
    assert_eq!(rt;
        save(&mut disk, &mut instances, ABC, b"abc"),
        Ok(instance_id(1))
    );
    let name = FileName::Inst(ABC.0, instance_id(1).0);
    assert!(rt; has_octets(rt.alloc(), &mut disk, name, b"abc")?);
    let path = path_of(rt.alloc(), name)?;
    assert_eq!(rt; path.as_slice(), PATH);
    Ok(())
}

#[test]
fn two_texts_with_one_hash_are_kept(rt: HostRuntime) -> Result<(), Fail> {
    let mut disk = MemDisk::fresh(rt.alloc())?;
    let first = FileName::Inst(ABC.0, FOREIGN.0);
    put_file(&mut disk, first, b"xyz")?;
    let mut instances = foreign(rt.alloc(), ABC, 3)?;
    assert_eq!(rt;
        save(&mut disk, &mut instances, ABC, b"abc"),
        Ok(instance_id(1))
    );
    assert_eq!(rt; save(&mut disk, &mut instances, ABC, b"xyz"), Ok(FOREIGN));
    assert_eq!(rt;
        save(&mut disk, &mut instances, ABC, b"abc"),
        Ok(instance_id(1))
    );
    assert_eq!(rt;
        save(&mut disk, &mut instances, ABC, b"abcd"),
        Ok(instance_id(2))
    );
    let second = FileName::Inst(ABC.0, instance_id(1).0);
    assert!(rt; has_octets(rt.alloc(), &mut disk, first, b"xyz")?);
    assert!(rt; has_octets(rt.alloc(), &mut disk, second, b"abc")?);
    Ok(())
}

#[test]
fn long_texts_differ_at_any_place(rt: HostRuntime) -> Result<(), Fail> {
    let mut disk = MemDisk::fresh(rt.alloc())?;
    let mut instances = none_known(rt.alloc(), 0)?;
    let mut text = Vec::new(rt.alloc());
    text.resize(9000, b'a')?;
    assert_eq!(rt;
        save(&mut disk, &mut instances, OTHER, &text),
        Ok(instance_id(1))
    );
    assert_eq!(rt;
        save(&mut disk, &mut instances, OTHER, &text),
        Ok(instance_id(1))
    );
    for (place, number) in [
        (0, 2),
        (4095, 3),
        (4096, 4),
        (8191, 5),
        (8192, 6),
        (8999, 7),
    ] {
        let mut other = Vec::new(rt.alloc());
        other.resize(9000, b'a')?;
        if let Some(octet) = other.get_mut(place) {
            *octet = b'b';
        }
        let saved = save(&mut disk, &mut instances, OTHER, &other);
        assert_eq!(rt; saved, Ok(instance_id(number)), "{place}");
    }
    Ok(())
}

#[test]
fn numbers_are_used_up(rt: HostRuntime) -> Result<(), Fail> {
    let mut disk = MemDisk::fresh(rt.alloc())?;
    let mut instances = none_known(rt.alloc(), 4_294_967_293)?;
    let last = InstId([
        0x00, 0x11, 0x22, 0x33, 0x44, 0x55, 0x66, 0x77, 0xff, 0xff, 0xff, 0xff, 0xff, 0xff, 0xff,
        0xfe,
    ]);
    assert_eq!(rt; save(&mut disk, &mut instances, ABC, b"abc"), Ok(last));
    let full = Err(PlaceFault::Full(4_294_967_294));
    assert_eq!(rt; save(&mut disk, &mut instances, OTHER, b"other"), full);
    assert_eq!(rt; instances.candidate(OTHER, 5, None), None);
    assert_eq!(rt; disk.calls(), 4);
    Ok(())
}

/// What a crash leaves of the new instance when so many of the four calls had run: made, written, synced, its name synced.
fn left(run: u64, choice: Choice) -> Option<&'static [u8]> {
    match (run, choice) {
        (0, _) | (1..=3, Choice::Old) => None,
        (1, _) => Some(b""),
        (2, Choice::Torn(1)) => Some(b"\x01\x01\x01"),
        (2, Choice::Torn(_)) => Some(b"\xff\xff\xff"),
        _ => Some(b"abc"),
    }
}

#[test]
fn what_a_crash_leaves(rt: HostRuntime) -> Result<(), Fail> {
    let mut disk = MemDisk::fresh(rt.alloc())?;
    let first = FileName::Inst(OTHER.0, FOREIGN.0);
    put_file(&mut disk, first, b"other")?;
    disk.sync_names()?;
    let mut instances = foreign(rt.alloc(), OTHER, 5)?;
    assert_eq!(rt;
        save(&mut disk, &mut instances, ABC, b"abc"),
        Ok(instance_id(1))
    );
    assert_eq!(rt; disk.calls(), 8);
    let name = FileName::Inst(ABC.0, instance_id(1).0);
    each_crash(rt.alloc(), &disk, 4, |mut image, run, choice| {
        let kept = has_octets(rt.alloc(), &mut image, first, b"other")?;
        assert!(rt; kept, "{run} run, {choice:?}");
        match left(run.saturating_sub(4), choice) {
            Some(octets) => {
                let found = has_octets(rt.alloc(), &mut image, name, octets)?;
                assert!(rt; found, "{run} run, {choice:?}");
            }
            None => {
                let length = image.length(name);
                assert_eq!(rt; length, Err(DiskError::Absent), "{run} run, {choice:?}");
            }
        }
        Ok(())
    })
}

#[test]
fn each_call_fails_in_turn(rt: HostRuntime) -> Result<(), Fail> {
    for failed in 1..=4 {
        let mut disk = MemDisk::fresh(rt.alloc())?.failing(Seq::of(vec![in rt.alloc(); failed]?));
        let mut instances = none_known(rt.alloc(), 0)?;
        let placed = save(&mut disk, &mut instances, ABC, b"abc");
        assert_eq!(rt; placed, Err(PlaceFault::DiskFault), "call {failed}");
        assert_eq!(rt; disk.calls(), failed);
        assert_eq!(rt; instances.candidate(ABC, 3, None), None, "call {failed}");
        let placed = save(&mut disk, &mut instances, ABC, b"abc");
        assert_eq!(rt; placed, Ok(instance_id(2)), "call {failed}");
        let name = FileName::Inst(ABC.0, instance_id(2).0);
        let found = has_octets(rt.alloc(), &mut disk, name, b"abc")?;
        assert!(rt; found, "call {failed}");
    }
    Ok(())
}
