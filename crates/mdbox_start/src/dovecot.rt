// A folder that Dovecot uses.
use std::fs;
use std::io::ErrorKind;

/// Whether Dovecot's own files are in the current folder, or beside the storage files in it.
pub(crate) fn is_dovecots(rt: &HostRuntime) -> bool {
    has_name(rt, ".", "dovecot.") == Some(true) || has_name(rt, "storage", "dovecot.") == Some(true)
}

/// Whether it is known that there is no storage file.
pub(crate) fn lacks_mail_file(rt: &HostRuntime) -> bool {
    has_name(rt, "storage", "m.") == Some(false)
}

/// Whether a name in a folder begins so. None does where there is no folder; of one that can't be read whole nothing is known.
fn has_name(rt: &HostRuntime, folder: &str, start: &str) -> Option<bool> {
    let entries = match fs::read_dir(rt, folder) {
        Ok(entries) => entries,
        Err(error) if error.kind() == ErrorKind::NotFound => return Some(false),
        Err(_) => return None,
    };
    for entry in entries {
        match entry {
            Ok(entry) if entry.file_name().starts_with(start) => return Some(true),
            Ok(_) => {}
            Err(_) => return None,
        }
    }
    Some(false)
}
