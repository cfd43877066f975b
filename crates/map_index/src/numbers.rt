// The greatest numbers that entries of the map log name.
ghost use Rattle.std.specs.Prelude.{◌≡◌, ◌==◌, ◌&&◌, ℕ};
ghost use Rattle.model_meaning.specs.MapMeaning.{greatest, guid_file, instance_number, own_number, is_own, number_at, no_numbers, numbers_of, higher};

use mdbox_base::{Guid, Highest, InstRow, MapCount, MapEntry, MapPlace, MapUid, StoreId};

const NO_NUMBERS: Highest = Highest {
    file: 0,
    map: 0,
    instance: 0,
    mailbox: 0,
};

/// An item of an entry's list that names a record.
pub trait NamesRecord {
    ghost uid_of: { Self → ℕ };

    /// The record's map uid.
    fn uid(&self) -> u32
        ensures { result ≡ uid_of self.now };
}

impl NamesRecord for MapUid {
    ghost uid_of = { λ u. u.0 };

    fn uid(&self) -> u32 {
        self.0
    }
}

impl NamesRecord for MapCount {
    ghost uid_of = { λ c. c.uid.0 };

    fn uid(&self) -> u32 {
        self.uid.0
    }
}

impl NamesRecord for MapPlace {
    ghost uid_of = { λ p. p.uid.0 };

    fn uid(&self) -> u32 {
        self.uid.0
    }
}

/// The greater of each two.
pub fn higher(a: Highest, b: Highest) -> Highest
    ensures { result ≡ higher a b }
{
    Highest {
        file: a.file.max(b.file),
        map: a.map.max(b.map),
        instance: a.instance.max(b.instance),
        mailbox: a.mailbox.max(b.mailbox),
    }
}

/// The greatest numbers that an entry names, in the store with this id.
pub fn numbers_of(store: StoreId, entry: &MapEntry) -> Highest
    ensures { result ≡ numbers_of store.0 entry.now }
{
    match entry {
        MapEntry::H(highest) => *highest,
        MapEntry::B { mailbox, .. } | MapEntry::G { mailbox, .. } => Highest {
            mailbox: mailbox.0,
            ..NO_NUMBERS
        },
        MapEntry::S {
            uid,
            file,
            guid,
            instances,
            ..
        } => Highest {
            file: file.0.max(file_of(store, *guid)),
            map: uid.0,
            instance: greatest_instance(store, instances.as_slice()),
            mailbox: 0,
        },
        MapEntry::U { uid } => of_map(uid.0),
        MapEntry::D { uids } => of_map(greatest_uid(uids.as_slice())),
        MapEntry::T { counts } => of_map(greatest_uid(counts.as_slice())),
        MapEntry::P {
            file,
            target,
            moved,
            dropped,
        } => Highest {
            file: file.0.max(*target),
            map: greatest_uid(moved.as_slice()).max(greatest_uid(dropped.as_slice())),
            ..NO_NUMBERS
        },
        MapEntry::E { file } => Highest {
            file: file.0,
            ..NO_NUMBERS
        },
        MapEntry::X { mailbox, amounts } => Highest {
            map: greatest_uid(amounts.as_slice()),
            mailbox: mailbox.0,
            ..NO_NUMBERS
        },
        MapEntry::V { mailbox, .. } => Highest {
            mailbox: mailbox.0,
            ..NO_NUMBERS
        },
    }
}

/// No numbers but a map uid.
fn of_map(map: u32) -> Highest
    ensures { result ≡ record no_numbers { map = map } }
{
    Highest { map, ..NO_NUMBERS }
}

/// The greatest map uid that the items name, or 0.
fn greatest_uid<T: NamesRecord>(items: &[T]) -> u32
    ensures { result ≡ greatest T.uid_of items.now }
{
    let mut most: u32 = 0;
    for item in items {
        most = most.max(item.uid());
    }
    most
}

/// The greatest running number of instances of this store, or 0.
fn greatest_instance(store: StoreId, instances: &[InstRow]) -> u32
    ensures { result ≡ greatest (λ i. instance_number store.0 i.id.0) instances.now }
{
    let mut most: u32 = 0;
    for instance in instances {
        most = most.max(running_number(store, &instance.id.0));
    }
    most
}

/// The file number of a GUID of this store, else 0.
fn file_of(store: StoreId, guid: Guid) -> u32
    ensures { result ≡ guid_file store.0 guid.0 }
{
    own_number(is_own(store, &guid.0), third(&guid.0))
}

/// The running number of an instance id of this store's form, else 0.
fn running_number(store: StoreId, id: &[u8; 16]) -> u32
    ensures { result ≡ instance_number store.0 id.now }
{
    own_number(is_instance(store, id), fourth(id))
}

/// The number, if it is an own one and not the greatest of its type, else 0.
fn own_number(own: bool, number: u32) -> u32
    ensures { result ≡ own_number own number }
{
    if own && number != u32::MAX { number } else { 0 }
}

/// Whether an instance id has this store's form.
fn is_instance(store: StoreId, id: &[u8; 16]) -> bool
    ensures { result ≡ (is_own store.0 id.now && (number_at 8 id.now == 4294967295)) }
{
    is_own(store, id) && third(id) == u32::MAX
}

/// Whether an id begins with the store's.
fn is_own(store: StoreId, id: &[u8; 16]) -> bool
    ensures { result ≡ is_own store.0 id.now }
{
    id[..8] == store.0[..]
}

/// The number that the four octets from place 8 on spell.
fn third(id: &[u8; 16]) -> u32
    ensures { result ≡ number_at 8 id.now }
{
    u32::from_be_bytes([id[8], id[9], id[10], id[11]])
}

/// The number that the last four octets spell.
fn fourth(id: &[u8; 16]) -> u32
    ensures { result ≡ number_at 12 id.now }
{
    u32::from_be_bytes([id[12], id[13], id[14], id[15]])
}
