//! Appends entries to a log in the current folder, to be timed: as many of 40 octets as its word says.
#![tactic(auto)]

ghost use Rattle.std.specs.Prelude.{◌≤◌};

use anyhow::{Context, Result};
use disk_model::FileName;
use folder_disk::FolderDisk;
use folder_kept::KeptFolder;
use gate_log::{GateLog, create_log};
use mdbox_base::StoreId;
use model_logs::{LogHead, LogKind};
use os_folder::OsFolder;
use std::env;

const NAME: FileName = FileName::Map(1);

const HEAD: LogHead = LogHead {
    version: 1,
    store: StoreId([1; 8]),
    kind: LogKind::Map,
    number: 0,
    generation: 1,
};

fn main(rt: HostRuntime) -> Result<()> {
    let word = env::args(&rt)?.nth(1).context("usage: log_bench COUNT")?;
    let count = word.parse::<u32>()?;
    fill_log(rt, count)?;
    println!(rt; "appended {count}")?;
    Ok(())
}

/// Makes the log, and appends so many entries.
fn fill_log(rt: HostRuntime, count: u32) -> Result<()> {
    let mut disk = FolderDisk::of(KeptFolder::of(OsFolder::of(rt), rt.alloc()), rt.alloc());
    let mut log = create_log(rt.alloc(), &mut disk, NAME, HEAD)?;
    log.reserve(45)?;
    append_all(&mut log, &mut disk, count)
}

/// Appends so many entries.
fn append_all(
    log: &mut GateLog,
    disk: &mut FolderDisk<KeptFolder<OsFolder>>,
    count: u32,
) -> Result<()>
    requires { 45 ≤ log.old.room }
{
    for _ in 0..count {
        log.append(disk, &[b'e'; 40])?;
    }
    Ok(())
}
