// The folders of a store.
ghost use Rattle.std.specs.Prelude.{◌≡◌, ◌++◌, [], ◌∷◌, IfOk, OnOk, string_bytes};
ghost use Rattle.hex.specs.Hex.{encode_lower};
ghost use Rattle.folder_disk.specs.Folders.{folder_text, folder_for, upper_of, IsFolderName};

use disk_model::FileName;
use folder_model::CallError;
use mdbox_base::{NoMemory, Octets};
use std::alloc::Global;

/// A folder in which a store's files may stand, or folders with them.
#[derive(Clone, Copy, PartialEq, Eq, PartialOrd, Ord)]
pub(crate) enum FolderName {
    /// The current folder.
    Top,
    Storage,
    Mailboxes,
    Attachments,
    /// The folder of the instances whose hashes begin with this octet, in `attachments`.
    Outer(u8),
    /// The folder of the instances whose hashes begin with these octets, in the outer one of the first.
    Inner(u8, u8),
}

impl FolderName {
    /// The folder that a file stands in.
    pub(crate) fn of(name: FileName) -> FolderName
        ensures { result ≡ folder_for name }
    {
        match name {
            FileName::Root | FileName::Map(_) | FileName::Mail(_) => FolderName::Storage,
            FileName::Box(_, _) => FolderName::Mailboxes,
            FileName::Inst(hash, _) => FolderName::Inner(hash[0], hash[1]),
        }
    }

    /// The folder that it stands in. The current one stands in itself.
    pub(crate) fn upper(self) -> FolderName
        ensures { result ≡ upper_of self }
    {
        match self {
            FolderName::Top
            | FolderName::Storage
            | FolderName::Mailboxes
            | FolderName::Attachments => FolderName::Top,
            FolderName::Outer(_) => FolderName::Attachments,
            FolderName::Inner(first, _) => FolderName::Outer(first),
        }
    }

    /// The folder's path.
    pub(crate) fn path(self, alloc: Global) -> Result<String, CallError>
        ensures { IfOk result (λ path. string_bytes path ≡ folder_text self) }
    {
        let mut path = Octets::empty(alloc);
        match self {
            FolderName::Top => path.push_all(b".")?,
            FolderName::Storage => path.push_all(b"storage")?,
            FolderName::Mailboxes => path.push_all(b"mailboxes")?,
            FolderName::Attachments => path.push_all(b"attachments")?,
            FolderName::Outer(first) => {
                path.push_all(b"attachments/")?;
                push_digits(alloc, &mut path, first)?;
            }
            FolderName::Inner(first, second) => {
                path.push_all(b"attachments/")?;
                push_digits(alloc, &mut path, first)?;
                path.push_all(b"/")?;
                push_digits(alloc, &mut path, second)?;
            }
        }
        match String::from_utf8(path.into_vec()) {
            Ok(path) => Ok(path),
            Err(_) => Err(CallError::Failed),
        }
    }
}

/// Adds an octet as two lower-case hexadecimal digits.
fn push_digits(alloc: Global, path: &mut Octets, octet: u8) -> Result<(), NoMemory>
    ensures { OnOk result (path.new ≡ path.old ++ encode_lower (octet ∷ [])) }
{
    let digits = hex::encode(alloc, &[octet])?;
    path.push_all(digits.as_bytes())
}

/// The octets in a folder's name are in their type's range.
pub(crate) fn known_folder(name: FolderName)
    ensures { IsFolderName name }
{
    match name {
        FolderName::Top | FolderName::Storage | FolderName::Mailboxes | FolderName::Attachments =>
            (),
        FolderName::Outer(_first) => (),
        FolderName::Inner(_first, _second) => (),
    }
}
