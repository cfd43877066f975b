// Names of files.
ghost use Rattle.std.specs.Prelude.{◌≡◌, ◌↔◌, ◌<◌, IsTrue, All};
ghost use Rattle.disk_model.specs.Name.{same_name, is_log, IsNameInRange};

use std::cmp::Ordering;

/// The name of a file of a store. Names are ordered by kind, in the order here, and then by their numbers or octets.
#[derive(Clone, Copy, Debug, PartialEq, Eq, PartialOrd, Ord)]
pub enum FileName {
    /// The root log, `storage/root.log`.
    Root,
    /// The map log of a generation, `storage/map.G.log`.
    Map(u32),
    /// The log of a mailbox's number and generation, `mailboxes/b.K.G.log`.
    Box(u32, u32),
    /// The storage file of a number, `storage/m.N`.
    Mail(u32),
    /// An instance of an attachment, by the hash of its octets and its id, `attachments/aa/bb/HASH-ID`.
    Inst([u8; 20], [u8; 16]),
}

/// Whether two names are the same.
pub fn same_file(a: FileName, b: FileName) -> bool
    ensures { IsTrue result ↔ (a ≡ b) }
{
    a == b
}

/// Whether two names are the same, by the test that the definitions use.
pub fn is_named(name: FileName, own: FileName) -> bool
    ensures { result ≡ same_name name own }
{
    same_file(name, own)
}

/// The order of two names.
pub fn order(a: FileName, b: FileName) -> Ordering
    ensures { result ≡ ⟦<FileName as Ord>⟧.cmp a b }
{
    a.cmp(&b)
}

/// Whether it is the name of a log, and of no storage file and no instance.
pub fn is_log(name: FileName) -> bool
    ensures { result ≡ is_log name }
{
    matches!(
        name,
        FileName::Root | FileName::Map(_) | FileName::Box(_, _)
    )
}

/// The numbers and octets of a name are in their types' ranges.
pub fn known_range(name: FileName)
    ensures { IsNameInRange name }
{
    match name {
        FileName::Root => (),
        FileName::Map(_generation) => (),
        FileName::Box(_number, _generation) => (),
        FileName::Mail(_number) => (),
        FileName::Inst(hash, id) => {
            known_octets(&hash);
            known_octets(&id);
        }
    }
}

fn known_octets(octets: &[u8])
    ensures { All (λ octet. octet < 256) octets.now }
{
    let _length = octets.len();
}
