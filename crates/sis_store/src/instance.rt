// An instance as it is known, and its key in the order of hashes.
ghost use Rattle.std.specs.Prelude.{◌≡◌};
ghost use Rattle.sis_store.specs.Hashes.{hash_key, is_key_before, is_key_of};

use mdbox_base::{Hash, InstId, InstRow};
use std::cmp::Ordering;

/// An instance as it is known, and how many hold it.
#[derive(Clone, Copy, Debug, PartialEq, Eq)]
pub struct KnownInstance {
    pub row: InstRow,
    pub holders: u32,
}

/// What instances are ordered by to be found by hash and size.
#[derive(Clone, Copy, PartialEq, Eq, PartialOrd, Ord)]
pub(crate) struct HashKey {
    pub hash: Hash,
    pub size: u32,
    pub id: InstId,
}

/// The key of an instance.
pub(crate) fn hash_key(row: &InstRow) -> HashKey
    ensures { result ≡ hash_key row.now }
{
    HashKey {
        hash: row.hash,
        size: row.size,
        id: row.id,
    }
}

impl HashKey {
    /// Whether it is the key of an instance of this hash and size.
    pub(crate) fn is_of(&self, hash: Hash, size: u32) -> bool
        ensures { result ≡ is_key_of hash size self.now }
    {
        self.hash == hash && self.size == size
    }

    /// Whether it stands before all keys of this hash and size with an id past this one.
    pub(crate) fn is_before(&self, hash: Hash, size: u32, after: Option<InstId>) -> bool
        ensures { result ≡ is_key_before hash size after self.now }
    {
        match self.hash.cmp(&hash).then(self.size.cmp(&size)) {
            Ordering::Less => true,
            Ordering::Greater => false,
            Ordering::Equal => match after {
                Some(after) => self.id.cmp(&after).is_le(),
                None => false,
            },
        }
    }
}
