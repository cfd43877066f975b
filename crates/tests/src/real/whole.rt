// One test runs the cases one after the other, since they share a folder and its lock.
use crate::real::{disk, folder};
use mdbox_base::Clock;
use os_folder::StdClock;
use std::test::Fail;

#[test]
fn real_files(rt: HostRuntime) -> Result<(), Fail> {
    folder::a_second_folder_reads_the_same(&rt, rt)?;
    folder::reads_write_nothing(&rt, rt)?;
    folder::a_lock_is_held(&rt, rt)?;
    folder::a_lock_that_was_made_goes(&rt, rt)?;
    folder::a_lock_may_be_read_only(&rt, rt)?;
    folder::others_are_no_folders(&rt, rt)?;
    folder::what_may_not_be_read_is_there(&rt, rt)?;
    disk::a_second_disk_reads_the_same(&rt, rt)?;
    disk::a_held_store_is_left_alone(&rt, rt)?;
    disk::a_second_disk_waits(&rt, rt)
}

#[test]
fn the_clock_is_past_2020(rt: HostRuntime) -> Result<(), Fail> {
    let mut clock = StdClock::of(rt);
    assert!(rt; clock.now()? > 1_577_836_800);
    Ok(())
}
