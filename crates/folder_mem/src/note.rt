// What calls have changed.
use crate::text::Text;
use mdbox_base::{NoMemory, Octets};

/// What a call changed. Files are told by their numbers, in the order in which they were made.
#[derive(Drop)]
pub enum Change {
    Locked,
    /// The process has ended.
    Ended,
    MadeFile(String),
    MadeFolder(String),
    Removed(String),
    Written(u64, u64, Text),
    Cut(u64, u64),
    Synced(u64),
    NamesSynced(String),
    SyncFailed,
}

impl Change {
    /// Appends its kind and its parts, each with its length before it.
    pub(crate) fn push_record(&self, out: &mut Octets) -> Result<(), NoMemory> {
        match self {
            Change::Locked => out.push_all(b"L"),
            Change::Ended => out.push_all(b"E"),
            Change::MadeFile(path) => push_part(out, b"M", path.as_bytes()),
            Change::MadeFolder(path) => push_part(out, b"D", path.as_bytes()),
            Change::Removed(path) => push_part(out, b"R", path.as_bytes()),
            Change::Written(number, at, text) => {
                push_part(out, b"W", &number.to_be_bytes())?;
                push_part(out, &at.to_be_bytes(), &text.octets)
            }
            Change::Cut(number, end) => {
                push_part(out, b"C", &number.to_be_bytes())?;
                out.push_all(&end.to_be_bytes())
            }
            Change::Synced(number) => push_part(out, b"S", &number.to_be_bytes()),
            Change::NamesSynced(path) => push_part(out, b"N", path.as_bytes()),
            Change::SyncFailed => out.push_all(b"F"),
        }
    }
}

fn push_part(out: &mut Octets, kind: &[u8], part: &[u8]) -> Result<(), NoMemory> {
    out.push_all(kind)?;
    out.push_all(&(part.len() as u64).to_be_bytes())?;
    out.push_all(part)
}
