// What a disk in memory does, call by call.
use crate::stores::{file_octets, put_file, put_unsynced};
use disk_mem::MemDisk;
use disk_model::{Disk, DiskError, FileName};
use mdbox_base::Seq;
use std::test::Fail;

/// Names by kind, and within a kind by their numbers or octets.
const IN_ORDER: [FileName; 8] = [
    FileName::Root,
    FileName::Map(2),
    FileName::Map(10),
    FileName::Box(1, 3),
    FileName::Box(2, 0),
    FileName::Mail(1),
    FileName::Inst([0; 20], [1; 16]),
    FileName::Inst([1; 20], [0; 16]),
];

#[test]
fn each_call_once(rt: HostRuntime) -> Result<(), Fail> {
    let mut disk = MemDisk::fresh(rt.alloc())?;
    put_file(&mut disk, FileName::Mail(7), b"abc")?;
    disk.cut(FileName::Mail(7), 2)?;
    assert_eq!(rt;
        file_octets(rt.alloc(), &mut disk, FileName::Mail(7))?.as_slice(),
        b"ab".as_slice()
    );
    disk.make(FileName::Box(1, 2))?;
    disk.sync_names()?;
    assert_eq!(rt;
        disk.next_name(Some(FileName::Box(1, 2))),
        Ok(Some(FileName::Mail(7)))
    );
    disk.remove(FileName::Mail(7))?;
    assert_eq!(rt; disk.length(FileName::Mail(7)), Err(DiskError::Absent));
    assert_eq!(rt; disk.starved(), 0);
    Ok(())
}

#[test]
fn names_in_order(rt: HostRuntime) -> Result<(), Fail> {
    let mut disk = MemDisk::fresh(rt.alloc())?;
    for name in IN_ORDER.iter().rev() {
        disk.make(*name)?;
    }
    let mut after = None;
    for name in IN_ORDER {
        assert_eq!(rt; disk.next_name(after), Ok(Some(name)));
        after = Some(name);
    }
    assert_eq!(rt; disk.next_name(after), Ok(None));
    Ok(())
}

/// The first of three calls that fails, by what was listed, and what the file holds then.
#[test]
fn listed_calls_fail(rt: HostRuntime) -> Result<(), Fail> {
    let cases = [
        (1, false, false, Err(DiskError::Absent)),
        (2, false, false, Ok(0)),
        (3, false, true, Ok(3)),
        (1, true, false, Ok(0)),
        (2, true, true, Ok(3)),
    ];
    for (number, is_write, is_put, length) in cases {
        let numbers = Seq::of(vec![in rt.alloc(); number]?);
        let fresh = MemDisk::fresh(rt.alloc())?;
        let mut disk = if is_write {
            fresh.failing_writes(numbers)
        } else {
            fresh.failing(numbers)
        };
        assert_eq!(rt;
            put_unsynced(&mut disk, FileName::Root, b"abc").is_ok(),
            is_put
        );
        assert_eq!(rt; disk.sync_names().is_err(), !is_write && number == 3);
        assert_eq!(rt; disk.length(FileName::Root), length);
        assert_eq!(rt; disk.starved(), 0);
    }
    Ok(())
}
