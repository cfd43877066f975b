// An instance that is removed, with a call that fails or a crash.
use crate::instances::saving::{
    ABC, has_octets, instance_id, let_go, none_known, remove_first, save,
};
use crate::stores::each_crash;
use disk_mem::{Choice, MemDisk};
use disk_model::{Disk, DiskError, FileName};
use mdbox_base::Seq;
use sis_store::{DiskFault, Instances, PlaceFault};
use std::alloc::Global;
use std::test::Fail;

/// A store with one instance, which nobody holds.
fn one_unheld(alloc: Global) -> Result<(MemDisk, Instances), PlaceFault> {
    let mut disk = MemDisk::fresh(alloc)?;
    let mut instances = none_known(alloc, 0)?;
    let id = save(&mut disk, &mut instances, ABC, b"abc")?;
    let_go(&mut instances, id);
    Ok((disk, instances))
}

#[test]
fn what_a_crash_leaves_of_it(rt: HostRuntime) -> Result<(), Fail> {
    let (mut disk, mut instances) = one_unheld(rt.alloc())?;
    assert_eq!(rt; disk.calls(), 4);
    assert_eq!(rt; remove_first(&mut disk, &mut instances), Ok(true));
    assert_eq!(rt; remove_first(&mut disk, &mut instances), Ok(false));
    assert_eq!(rt; instances.candidate(ABC, 3, None), None);
    assert_eq!(rt; disk.calls(), 5);
    let name = FileName::Inst(ABC.0, instance_id(1).0);
    each_crash(rt.alloc(), &disk, 4, |mut image, run, choice| {
        if run == 4 || matches!(choice, Choice::Old) {
            let found = has_octets(rt.alloc(), &mut image, name, b"abc")?;
            assert!(rt; found, "{run} run, {choice:?}");
        } else {
            let length = image.length(name);
            assert_eq!(rt; length, Err(DiskError::Absent), "{run} run, {choice:?}");
        }
        Ok(())
    })?;
    assert_eq!(rt;
        save(&mut disk, &mut instances, ABC, b"abc"),
        Ok(instance_id(2))
    );
    Ok(())
}

#[test]
fn it_stays_known_if_the_call_fails(rt: HostRuntime) -> Result<(), Fail> {
    let (disk, mut instances) = one_unheld(rt.alloc())?;
    let mut disk = disk.failing(Seq::of(vec![in rt.alloc(); 1]?));
    assert_eq!(rt; remove_first(&mut disk, &mut instances), Err(DiskFault));
    assert_eq!(rt; disk.calls(), 5);
    let found = instances.candidate(ABC, 3, None);
    assert_eq!(rt; found, Some(instance_id(1)));
    Ok(())
}
