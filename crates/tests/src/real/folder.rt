// The system's folder, call by call.
use folder_model::{CallError, Folder, Kind};
use os_folder::OsFolder;
use std::fs::{self, Permissions};
use std::os::unix::fs::{PermissionsExt, symlink};
use std::process::Abort;
use std::test::Fail;

const FAILED: CallError = CallError::Failed;

/// What each call leaves is what a second process' folder finds.
pub(crate) fn a_second_folder_reads_the_same(
    rt: &impl Abort,
    host: HostRuntime,
) -> Result<(), Fail> {
    write_some(rt, host)?;
    let mut folder = OsFolder::of(host);
    assert_eq!(rt; folder.look("kept"), Ok(Kind::Folder));
    assert_eq!(rt; folder.look("kept/gone"), Ok(Kind::Nothing));
    assert_eq!(rt; folder.paths_in("kept")?.len(), 1);
    let file = folder.open("kept/file", true)?;
    assert_eq!(rt; folder.length(&file), Ok(5));
    let mut into = *b"--------";
    assert_eq!(rt; folder.read_some(&file, 1, &mut into), Ok(4));
    assert_eq!(rt; into, *b"bxde----");
    assert_eq!(rt; folder.read_some(&file, 5, &mut into), Ok(0));
    assert_eq!(rt; folder.read_some(&file, 9, &mut into), Ok(0));
    assert_eq!(rt; folder.read_some(&file, 1 << 63, &mut into), Err(FAILED));
    assert_eq!(rt; folder.write_some(&file, 1 << 63, b"x"), Err(FAILED));
    assert_eq!(rt; folder.set_length(&file, 1 << 63), Err(FAILED));
    assert_eq!(rt; folder.length(&file), Ok(5));
    folder.remove("kept/file")?;
    assert_eq!(rt; folder.paths_in("kept")?.len(), 0);
    fs::remove_dir(&host, "kept")?;
    Ok(())
}

/// Makes a folder and a file, and writes, cuts and removes.
fn write_some(rt: &impl Abort, host: HostRuntime) -> Result<(), Fail> {
    let mut folder = OsFolder::of(host);
    assert_eq!(rt; folder.make_folder("kept"), Ok(true));
    assert_eq!(rt; folder.make_folder("kept"), Ok(false));
    folder.sync_folder(".")?;
    let file = folder.make_new("kept/file")?;
    assert!(rt; folder.make_new("kept/file").is_err());
    assert_eq!(rt; folder.make_folder("kept/file"), Ok(false));
    assert_eq!(rt; folder.write_some(&file, 0, b"abcdefg"), Ok(7));
    assert_eq!(rt; folder.write_some(&file, 2, b"x"), Ok(1));
    folder.set_length(&file, 5)?;
    folder.sync(&file)?;
    let _gone = folder.make_new("kept/gone")?;
    folder.remove("kept/gone")?;
    assert_eq!(rt; folder.remove("kept/gone"), Err(FAILED));
    folder.sync_folder("kept")?;
    assert_eq!(rt; mode_of(host, "kept")?, 0o700);
    assert_eq!(rt; mode_of(host, "kept/file")?, 0o600);
    Ok(())
}

fn mode_of(host: HostRuntime, path: &str) -> Result<u32, Fail> {
    Ok(fs::metadata(&host, path)?.permissions().mode() & 0o777)
}

/// A file that is opened to be read can't be written.
pub(crate) fn reads_write_nothing(rt: &impl Abort, host: HostRuntime) -> Result<(), Fail> {
    let mut folder = OsFolder::of(host);
    let _made = folder.make_new("file")?;
    let file = folder.open("file", false)?;
    assert_eq!(rt; folder.write_some(&file, 0, b"x"), Err(FAILED));
    assert_eq!(rt; folder.set_length(&file, 0), Err(FAILED));
    assert_eq!(rt; folder.length(&file), Ok(0));
    folder.remove("file")?;
    assert!(rt; folder.open("file", true).is_err());
    assert_eq!(rt; folder.look("file"), Ok(Kind::Nothing));
    Ok(())
}

/// One folder at a time has the lock, until it is dropped.
pub(crate) fn a_lock_is_held(rt: &impl Abort, host: HostRuntime) -> Result<(), Fail> {
    let mut first = OsFolder::of(host);
    let mut second = OsFolder::of(host);
    assert_eq!(rt; first.try_lock(), Ok(true));
    assert_eq!(rt; second.try_lock(), Ok(false));
    second.pause();
    assert_eq!(rt; second.look("mdbox.lock"), Ok(Kind::File));
    assert_eq!(rt; second.try_lock(), Ok(false));
    drop(first);
    assert_eq!(rt; second.try_lock(), Ok(true));
    Ok(())
}

/// A lock's file goes with the process that made it, if this leaves the folder, and with no other one.
pub(crate) fn a_lock_that_was_made_goes(rt: &impl Abort, host: HostRuntime) -> Result<(), Fail> {
    fs::remove_file(&host, "mdbox.lock")?;
    let mut first = OsFolder::of(host);
    assert_eq!(rt; first.try_lock(), Ok(true));
    first.leave();
    let mut second = OsFolder::of(host);
    assert_eq!(rt; second.try_lock(), Ok(true));
    drop(second);
    let mut third = OsFolder::of(host);
    assert_eq!(rt; third.try_lock(), Ok(true));
    third.leave();
    let mut last = OsFolder::of(host);
    assert_eq!(rt; last.try_lock(), Ok(true));
    assert_eq!(rt; last.look("mdbox.lock"), Ok(Kind::File));
    Ok(())
}

/// The lock's file may be one that can only be read.
pub(crate) fn a_lock_may_be_read_only(rt: &impl Abort, host: HostRuntime) -> Result<(), Fail> {
    fs::set_permissions(&host, "mdbox.lock", Permissions::from_mode(0o400))?;
    let mut first = OsFolder::of(host);
    let mut second = OsFolder::of(host);
    assert_eq!(rt; first.try_lock(), Ok(true));
    assert_eq!(rt; second.try_lock(), Ok(false));
    fs::set_permissions(&host, "mdbox.lock", Permissions::from_mode(0o600))?;
    Ok(())
}

/// What is no folder has no paths and isn't synced, a link to one isn't either, and no link is followed by a look.
pub(crate) fn others_are_no_folders(rt: &impl Abort, host: HostRuntime) -> Result<(), Fail> {
    let mut folder = OsFolder::of(host);
    assert_eq!(rt; folder.make_folder("plain"), Ok(true));
    symlink(&host, "plain", "link")?;
    symlink(&host, "nowhere", "broken")?;
    symlink(&host, "circle", "circle")?;
    let _file = folder.make_new("file")?;
    for path in ["link", "broken", "circle", "file", "nothing"] {
        assert_eq!(rt; folder.sync_folder(path), Err(FAILED));
    }
    for path in ["link", "broken", "circle"] {
        assert_eq!(rt; folder.look(path), Ok(Kind::Other));
        assert!(rt; folder.make_new(path).is_err());
        assert_eq!(rt; folder.make_folder(path), Ok(false));
    }
    for path in ["file", "nothing", "broken", "circle", "file/below"] {
        assert_eq!(rt; folder.paths_in(path)?.len(), 0);
    }
    for path in ["nothing", "nothing/below", "file/below", "circle/below"] {
        assert_eq!(rt; folder.look(path), Ok(Kind::Nothing));
    }
    let names = folder.paths_in(".")?;
    for path in ["plain", "link", "broken", "circle", "file"] {
        assert!(rt; names.iter().any(|name| name.as_str() == path));
        if path != "plain" {
            folder.remove(path)?;
        }
    }
    fs::remove_dir(&host, "plain")?;
    Ok(())
}

/// What may not be read isn't taken for absent. (Who may read everything reads it.)
pub(crate) fn what_may_not_be_read_is_there(
    rt: &impl Abort,
    host: HostRuntime,
) -> Result<(), Fail> {
    let mut folder = OsFolder::of(host);
    assert_eq!(rt; folder.make_folder("shut"), Ok(true));
    let _file = folder.make_new("shut/file")?;
    fs::set_permissions(&host, "shut", Permissions::from_mode(0))?;
    let found = folder.look("shut/file");
    assert!(rt; found == Ok(Kind::File) || found == Err(FAILED));
    match folder.paths_in("shut") {
        Ok(paths) => assert_eq!(rt; paths.len(), 1),
        Err(error) => assert_eq!(rt; error, FAILED),
    }
    fs::set_permissions(&host, "shut", Permissions::from_mode(0o700))?;
    folder.remove("shut/file")?;
    fs::remove_dir(&host, "shut")?;
    Ok(())
}
