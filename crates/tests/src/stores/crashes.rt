// What a crash can leave of a disk.
use disk_mem::{Choice, MemDisk};
use std::alloc::Global;
use std::test::Fail;

/// What a crash may leave of the writes since the last syncs.
const CHOICES: [Choice; 4] = [Choice::Old, Choice::New, Choice::Torn(1), Choice::Torn(255)];

/// Tries each disk that a crash can leave when this many of its calls had run, or more. The test is told how many, and what
/// was left of the writes.
pub fn each_crash<F: Fn(MemDisk, u64, Choice) -> Result<(), Fail>>(
    alloc: Global,
    disk: &MemDisk,
    first: u64,
    test: F,
) -> Result<(), Fail>
    requires { F.IsAlwaysCallable test }
{
    for run in first..=disk.calls() {
        for choice in CHOICES {
            test(disk.image(alloc, run, choice)?, run, choice)?;
        }
    }
    Ok(())
}
