// Which entry fits behind those so far.
ghost use Rattle.std.specs.Prelude.{codes, ◌≡◌, ◌≢◌, ◌<◌, ◌≤◌, ◌↔◌, map, IsTrue, Some, All, AllPairs};
ghost use Rattle.std.specs.List.Sorted.{IsStrictlyIncreasing};
ghost use Rattle.model_meaning.specs.MapMeaning.{MapBox, box_at};
ghost use Rattle.map_index.specs.Has.{HasAmount, KnowsBox, HasRow, HasCount};
ghost use Rattle.model_meaning.specs.MapFits.{MapFits, FitsDeleted, FitsRenamed, HasMapBox, IsRaised, IsKnown, HasRecord, FitsMade, FitsRegion, IsFree, AgreesOn};
ghost use Rattle.mdbox_base.specs.Words.{IsNumber};

use super::MapIndex;
use crate::fitting::{agree_among, ends, is_new_name, is_number, is_raised};
use crate::named::rise;
use mdbox_base::{BoxNo, FileNo, Guid, Highest, InstRow, MapCount, MapEntry, MapUid, Name};

/// How many mailboxes a store has at the most.
const MOST_BOXES: usize = 1024;

/// The greatest count of a record that may rise.
const LAST_RAISED: u16 = 65_534;

impl MapIndex {
    /// Whether an entry fits behind those so far.
    pub fn fits(&self, entry: &MapEntry) -> bool
        ensures { IsTrue result ↔ MapFits self.now.meaning entry.now }
    {
        match entry {
            MapEntry::H(highest) => self.can_raise(highest),
            MapEntry::B {
                mailbox,
                generation,
                name,
            } => self.can_make(*mailbox, *generation, name),
            MapEntry::G {
                mailbox,
                generation,
            } => self.can_renew(*mailbox, *generation),
            MapEntry::S {
                origin,
                uid,
                file,
                offset,
                size,
                guid,
                instances,
                ..
            } => {
                *origin <= 1
                    && self.is_new(*uid, *guid)
                    && self.has_room(*file, *offset, *size)
                    && self.can_name(instances.as_slice())
            }
            MapEntry::U { uid } => self.can_count_up(*uid),
            MapEntry::D { uids } => self.can_count_down(uids.as_slice()),
            MapEntry::T { counts } => self.can_count(counts.as_slice()),
            MapEntry::P {
                file,
                target,
                moved,
                dropped,
            } => self.can_purge(*file, *target, moved.as_slice(), dropped.as_slice()),
            MapEntry::E { file } => is_number(file.0),
            MapEntry::X { mailbox, amounts } => self.can_delete(*mailbox, amounts.as_slice()),
            MapEntry::V { mailbox, name } => self.can_rename(*mailbox, name),
        }
    }

    fn can_raise(&self, highest: &Highest) -> bool
        ensures { IsTrue result ↔ (IsRaised self.now.meaning.highest.file highest.now.file × IsRaised self.now.meaning.highest.map highest.now.map × IsRaised self.now.meaning.highest.instance highest.now.instance × IsRaised self.now.meaning.highest.mailbox highest.now.mailbox) }
    {
        is_raised(self.most.file, highest.file)
            && is_raised(self.most.map, highest.map)
            && is_raised(self.most.instance, highest.instance)
            && is_raised(self.most.mailbox, highest.mailbox)
    }

    fn can_make(&self, number: BoxNo, generation: u32, name: &Name) -> bool
        ensures { IsTrue result ↔ FitsMade self.now.meaning number.0 generation name.now }
    {
        is_number(number.0)
            && self.most.mailbox < number.0
            && is_number(generation)
            && self.is_new_name(name)
            && self.boxes.len() < MOST_BOXES
    }

    fn can_renew(&self, number: BoxNo, generation: u32) -> bool
        ensures { IsTrue result ↔ (IsNumber number.0 × IsNumber generation × ((box : MapBox) × (box_at self.now.meaning number.0 ≡ Some box) × (box.generation < generation))) }
    {
        is_number(number.0)
            && is_number(generation)
            && match self.find_box(number) {
                Some(mailbox) => mailbox.at.generation < generation,
                None => false,
            }
    }

    fn can_delete(&self, number: BoxNo, amounts: &[MapCount]) -> bool
        ensures { IsTrue result ↔ FitsDeleted self.now.meaning number.0 amounts.now }
    {
        self.has_box(number) && self.can_lower(amounts)
    }

    fn can_rename(&self, number: BoxNo, name: &Name) -> bool
        ensures { IsTrue result ↔ FitsRenamed self.now.meaning number.0 name.now }
    {
        self.can_be_renamed(number) && self.is_new_name(name)
    }

    #[tactic(auto, unfolding(crate::specs::Has::KnowsBox))]
    fn has_box(&self, number: BoxNo) -> bool
        ensures { IsTrue result ↔ KnowsBox self.now.meaning number.0 }
    {
        self.find_box(number).is_some()
    }

    /// Whether there is a mailbox with this number that isn't INBOX.
    fn can_be_renamed(&self, number: BoxNo) -> bool
        ensures { IsTrue result ↔ HasMapBox self.now.meaning number.0 (λ box. box.name ≢ codes "INBOX") }
    {
        match self.find_box(number) {
            Some(mailbox) => mailbox.name.as_octets() != b"INBOX".as_slice(),
            None => false,
        }
    }

    fn can_lower(&self, amounts: &[MapCount]) -> bool
        ensures { IsTrue result ↔ (IsStrictlyIncreasing (map (λ c. c.uid.0) amounts.now) × All (λ c. HasAmount self.now.meaning c) amounts.now) }
    {
        rise(amounts) && self.have_amounts(amounts)
    }

    fn have_amounts(&self, amounts: &[MapCount]) -> bool
        ensures { IsTrue result ↔ All (λ c. HasAmount self.now.meaning c) amounts.now }
    {
        amounts.iter().all(|given| self.has_amount(*given))
    }

    #[tactic(auto, unfolding(crate::specs::Has::HasAmount))]
    fn has_amount(&self, given: MapCount) -> bool
        ensures { IsTrue result ↔ HasAmount self.now.meaning given }
    {
        match self.find(given.uid) {
            Some(record) => 1 <= given.count && given.count <= record.row.count,
            None => false,
        }
    }

    fn has_room(&self, file: FileNo, offset: u32, size: u32) -> bool
        ensures { IsTrue result ↔ FitsRegion self.now.meaning file.0 offset size }
    {
        is_number(file.0) && size >= 1 && ends(offset, size) && self.is_free(file.0, offset, size)
    }

    fn can_count_up(&self, uid: MapUid) -> bool
        ensures { IsTrue result ↔ HasRecord self.now.meaning uid.0 (λ row. (1 ≤ row.count) × (row.count ≤ 65534)) }
    {
        match self.find(uid) {
            Some(record) => 1 <= record.row.count && record.row.count <= LAST_RAISED,
            None => false,
        }
    }

    #[tactic(auto, unfolding(crate::specs::Has::HasCount))]
    fn can_count_down(&self, uids: &[MapUid]) -> bool
        ensures { IsTrue result ↔ (IsStrictlyIncreasing (map (λ u. u.0) uids.now) × All (λ u. HasRecord self.now.meaning u.0 (λ row. 1 ≤ row.count)) uids.now) }
    {
        rise(uids) && self.are_counted(uids)
    }

    fn are_counted(&self, uids: &[MapUid]) -> bool
        ensures { IsTrue result ↔ All (λ u. HasCount self.now.meaning u.0) uids.now }
    {
        uids.iter().all(|uid| self.is_counted(*uid))
    }

    fn are_known(&self, counts: &[MapCount]) -> bool
        ensures { IsTrue result ↔ All (λ c. HasRow self.now.meaning c.uid.0) counts.now }
    {
        counts.iter().all(|given| self.is_known(given.uid))
    }

    #[tactic(auto, unfolding(crate::specs::Has::HasRow))]
    fn is_known(&self, uid: MapUid) -> bool
        ensures { IsTrue result ↔ HasRow self.now.meaning uid.0 }
    {
        self.find(uid).is_some()
    }

    #[tactic(auto, unfolding(crate::specs::Has::HasCount))]
    fn is_counted(&self, uid: MapUid) -> bool
        ensures { IsTrue result ↔ HasCount self.now.meaning uid.0 }
    {
        match self.find(uid) {
            Some(record) => 1 <= record.row.count,
            None => false,
        }
    }

    #[tactic(auto, unfolding(crate::specs::Has::HasRow))]
    fn can_count(&self, counts: &[MapCount]) -> bool
        ensures { IsTrue result ↔ (IsStrictlyIncreasing (map (λ c. c.uid.0) counts.now) × All (λ c. IsKnown self.now.meaning c.uid.0) counts.now) }
    {
        rise(counts) && self.are_known(counts)
    }

    /// Whether no region of this file overlaps these octets.
    pub fn is_free(&self, file: u32, offset: u32, size: u32) -> bool
        ensures { IsTrue result ↔ IsFree self.now.meaning file offset size }
    {
        self.records.is_free(file, offset, size)
    }

    /// Whether no record has had the map uid, and none has the GUID.
    fn is_new(&self, uid: MapUid, guid: Guid) -> bool
        ensures { IsTrue result ↔ (IsNumber uid.0 × (self.now.meaning.highest.map < uid.0) × All (λ row. row.guid ≢ guid.0) self.now.meaning.records) }
    {
        self.is_new_uid(uid) && self.is_new_guid(guid)
    }

    fn is_new_uid(&self, uid: MapUid) -> bool
        ensures { IsTrue result ↔ (IsNumber uid.0 × (self.now.meaning.highest.map < uid.0)) }
    {
        is_number(uid.0) && self.most.map < uid.0
    }

    /// Whether a record may name these instances.
    fn can_name(&self, instances: &[InstRow]) -> bool
        ensures { IsTrue result ↔ (All (λ row. All (λ i. All (AgreesOn i) row.instances) instances.now) self.now.meaning.records × AllPairs AgreesOn instances.now) }
    {
        self.agrees(instances) && agree_among(instances)
    }

    fn is_new_guid(&self, guid: Guid) -> bool
        ensures { IsTrue result ↔ All (λ row. row.guid ≢ guid.0) self.now.meaning.records }
    {
        self.records.is_new_guid(guid)
    }

    fn is_new_name(&self, name: &Name) -> bool
        ensures { IsTrue result ↔ All (λ box. box.name ≢ name.now) self.now.meaning.boxes }
    {
        is_new_name(&self.boxes, name.as_octets())
    }

    /// Whether these instances have the same hash and size wherever records name them.
    fn agrees(&self, instances: &[InstRow]) -> bool
        ensures { IsTrue result ↔ All (λ row. All (λ i. All (AgreesOn i) row.instances) instances.now) self.now.meaning.records }
    {
        self.records.agrees(instances)
    }
}
