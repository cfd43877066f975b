// Candidates, and who holds which.
use crate::instances::saving::{ABC, foreign, instance_id, let_go, none_known, save};
use crate::stores::put_file;
use disk_mem::MemDisk;
use disk_model::FileName;
use mdbox_base::{Hash, InstId};
use std::test::Fail;

const OTHER: Hash = Hash([7; 20]);

const FOREIGN: InstId = InstId(*b"id of sixteen oc");

#[test]
fn candidates_come_in_order_of_id(rt: HostRuntime) -> Result<(), Fail> {
    let mut disk = MemDisk::fresh(rt.alloc())?;
    put_file(&mut disk, FileName::Inst(ABC.0, FOREIGN.0), b"xyz")?;
    let mut instances = foreign(rt.alloc(), ABC, 3)?;
    for text in [b"ab1", b"ab2", b"ab3"] {
        save(&mut disk, &mut instances, ABC, text)?;
    }
    save(&mut disk, &mut instances, ABC, b"longer")?;
    save(&mut disk, &mut instances, OTHER, b"ab4")?;
    let cases = [
        (ABC, 3, None, Some(instance_id(1))),
        (ABC, 3, Some(instance_id(0)), Some(instance_id(1))),
        (ABC, 3, Some(instance_id(1)), Some(instance_id(2))),
        (ABC, 3, Some(instance_id(2)), Some(instance_id(3))),
        (ABC, 3, Some(instance_id(3)), Some(FOREIGN)),
        (ABC, 3, Some(instance_id(5)), Some(FOREIGN)),
        (ABC, 3, Some(FOREIGN), None),
        (ABC, 6, None, Some(instance_id(4))),
        (ABC, 6, Some(instance_id(4)), None),
        (ABC, 5, None, None),
        (OTHER, 3, None, Some(instance_id(5))),
        (OTHER, 6, None, None),
        (Hash([8; 20]), 3, None, None),
    ];
    for (hash, size, after, expected) in cases {
        let found = instances.candidate(hash, size, after);
        assert_eq!(rt; found, expected, "{hash:?} {size} {after:?}");
    }
    Ok(())
}

#[test]
fn a_placed_instance_is_held(rt: HostRuntime) -> Result<(), Fail> {
    let mut disk = MemDisk::fresh(rt.alloc())?;
    let mut instances = none_known(rt.alloc(), 0)?;
    for text in [b"ab1", b"ab2", b"ab3"] {
        save(&mut disk, &mut instances, ABC, text)?;
    }
    assert_eq!(rt; instances.next_unheld(None), None);
    for number in 1..=3 {
        let_go(&mut instances, instance_id(number));
        assert_eq!(rt; instances.is_held(instance_id(number)), false);
    }
    for (after, expected) in [
        (None, 1),
        (Some(instance_id(1)), 2),
        (Some(instance_id(2)), 3),
    ] {
        assert_eq!(rt; instances.next_instance(after), Some(instance_id(expected)));
        assert_eq!(rt; instances.next_unheld(after), Some(instance_id(expected)));
    }
    assert_eq!(rt; instances.next_instance(Some(instance_id(3))), None);
    assert_eq!(rt; instances.next_unheld(Some(instance_id(3))), None);
    Ok(())
}
