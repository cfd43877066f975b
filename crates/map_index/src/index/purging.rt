// What a purge of a storage file needs.
ghost use Rattle.std.specs.Prelude.{◌≡◌, ◌≢◌, ◌↔◌, map, IsTrue, All, AllPairs};
ghost use Rattle.std.specs.List.Sorted.{IsStrictlyIncreasing};
ghost use Rattle.map_index.specs.Has.{HasRoom, IsIn, IsUnused};
ghost use Rattle.model_meaning.specs.MapFits.{FitsPurged, FitsTarget, FitsPlace, ArePlacedApart, IsMovedOrDropped, size_at};
ghost use Rattle.mdbox_base.specs.Words.{IsNumber};

use super::MapIndex;
use crate::fitting::{ends, is_number};
use crate::named::{is_named, rise};
use mdbox_base::{FileNo, MapPlace, MapUid};

impl MapIndex {
    /// Whether the records of a file can be moved to the target and dropped.
    pub fn can_purge(
        &self,
        file: FileNo,
        target: u32,
        moved: &[MapPlace],
        dropped: &[MapUid],
    ) -> bool
        ensures { IsTrue result ↔ FitsPurged self.now.meaning file.0 target moved.now dropped.now }
    {
        are_lists(file, moved, dropped) && self.can_empty(file, target, moved, dropped)
    }

    /// Whether the lists are exactly the file's records, with room for what is moved.
    fn can_empty(&self, file: FileNo, target: u32, moved: &[MapPlace], dropped: &[MapUid]) -> bool
        requires moved { IsStrictlyIncreasing (map (λ p. p.uid.0) moved.now) }
        requires dropped { IsStrictlyIncreasing (map (λ u. u.0) dropped.now) }
        ensures { IsTrue result ↔ (All (λ p. IsIn self.now.meaning file.0 p.uid.0) moved.now × All (λ u. IsUnused self.now.meaning file.0 u.0) dropped.now × All (λ row. row.file ≡ file.0 → IsMovedOrDropped moved.now dropped.now row) self.now.meaning.records × FitsTarget self.now.meaning file.0 target moved.now) }
    {
        self.name_records(file, moved, dropped) && self.fits_target(file, target, moved)
    }

    /// Whether the lists are exactly the file's records, and those dropped are unused.
    fn name_records(&self, file: FileNo, moved: &[MapPlace], dropped: &[MapUid]) -> bool
        requires moved { IsStrictlyIncreasing (map (λ p. p.uid.0) moved.now) }
        requires dropped { IsStrictlyIncreasing (map (λ u. u.0) dropped.now) }
        ensures { IsTrue result ↔ (All (λ p. IsIn self.now.meaning file.0 p.uid.0) moved.now × All (λ u. IsUnused self.now.meaning file.0 u.0) dropped.now × All (λ row. row.file ≡ file.0 → IsMovedOrDropped moved.now dropped.now row) self.now.meaning.records) }
    {
        self.are_here(file, moved, dropped) && self.each_is_named(file, moved, dropped)
    }

    fn are_here(&self, file: FileNo, moved: &[MapPlace], dropped: &[MapUid]) -> bool
        ensures { IsTrue result ↔ (All (λ p. IsIn self.now.meaning file.0 p.uid.0) moved.now × All (λ u. IsUnused self.now.meaning file.0 u.0) dropped.now) }
    {
        self.are_in_file(moved, file) && self.are_unused(dropped, file)
    }

    fn are_in_file(&self, moved: &[MapPlace], file: FileNo) -> bool
        ensures { IsTrue result ↔ All (λ p. IsIn self.now.meaning file.0 p.uid.0) moved.now }
    {
        moved.iter().all(|place| self.is_in_file(place.uid, file))
    }

    fn are_unused(&self, dropped: &[MapUid], file: FileNo) -> bool
        ensures { IsTrue result ↔ All (λ u. IsUnused self.now.meaning file.0 u.0) dropped.now }
    {
        dropped.iter().all(|uid| self.is_unused(*uid, file))
    }

    #[tactic(auto, unfolding(crate::specs::Has::IsIn))]
    fn is_in_file(&self, uid: MapUid, file: FileNo) -> bool
        ensures { IsTrue result ↔ IsIn self.now.meaning file.0 uid.0 }
    {
        match self.find(uid) {
            Some(record) => record.row.file.0 == file.0,
            None => false,
        }
    }

    #[tactic(auto, unfolding(crate::specs::Has::IsUnused))]
    fn is_unused(&self, uid: MapUid, file: FileNo) -> bool
        ensures { IsTrue result ↔ IsUnused self.now.meaning file.0 uid.0 }
    {
        match self.find(uid) {
            Some(record) => record.row.file.0 == file.0 && record.row.count == 0,
            None => false,
        }
    }

    /// Whether each record of the file is moved or dropped, and not both. The file's records are walked in order of offset.
    fn each_is_named(&self, file: FileNo, moved: &[MapPlace], dropped: &[MapUid]) -> bool
        requires moved { IsStrictlyIncreasing (map (λ p. p.uid.0) moved.now) }
        requires dropped { IsStrictlyIncreasing (map (λ u. u.0) dropped.now) }
        ensures { IsTrue result ↔ All (λ row. row.file ≡ file.0 → IsMovedOrDropped moved.now dropped.now row) self.now.meaning.records }
    {
        self.records.known_facts();
        let mut from = 0;
        while let Some(row) = self.in_file(file, from) {
            if !is_named(row.uid, moved, dropped) {
                return false;
            }
            from = row.offset + row.size;
        }
        true
    }

    /// Whether the target is 0 and nothing is moved, or is another file with room for what is moved.
    fn fits_target(&self, file: FileNo, target: u32, moved: &[MapPlace]) -> bool
        ensures { IsTrue result ↔ FitsTarget self.now.meaning file.0 target moved.now }
    {
        if moved.is_empty() {
            target == 0
        } else {
            self.takes(file, target, moved)
        }
    }

    /// Whether the target is another file with room for what is moved.
    fn takes(&self, file: FileNo, target: u32, moved: &[MapPlace]) -> bool
        ensures { IsTrue result ↔ (IsNumber target × (target ≢ file.0) × All (FitsPlace self.now.meaning target) moved.now × AllPairs (ArePlacedApart self.now.meaning) moved.now) }
    {
        is_other(file, target) && self.fit_apart(target, moved)
    }

    fn fit_apart(&self, target: u32, moved: &[MapPlace]) -> bool
        ensures { IsTrue result ↔ (All (HasRoom self.now.meaning target) moved.now × AllPairs (ArePlacedApart self.now.meaning) moved.now) }
    {
        self.fit(target, moved) && self.are_apart(moved)
    }

    fn fit(&self, target: u32, moved: &[MapPlace]) -> bool
        ensures { IsTrue result ↔ All (HasRoom self.now.meaning target) moved.now }
    {
        moved.iter().all(|place| self.fits_place(target, place))
    }

    #[tactic(auto, unfolding(crate::specs::Has::HasRoom))]
    fn fits_place(&self, target: u32, place: &MapPlace) -> bool
        ensures { IsTrue result ↔ HasRoom self.now.meaning target place.now }
    {
        match self.find(place.uid) {
            Some(record) => {
                ends(place.offset, record.row.size)
                    && self.is_free(target, place.offset, record.row.size)
            }
            None => false,
        }
    }

    /// Whether no two of the moved regions overlap. Mostly they follow one another.
    fn are_apart(&self, moved: &[MapPlace]) -> bool
        ensures { IsTrue result ↔ AllPairs (ArePlacedApart self.now.meaning) moved.now }
    {
        self.follow(moved) || self.none_overlap(moved)
    }

    /// Whether each of the moved regions begins where those before it have ended.
    fn follow(&self, moved: &[MapPlace]) -> bool
        ensures { IsTrue result → AllPairs (ArePlacedApart self.now.meaning) moved.now }
    {
        let mut end: u64 = 0;
        for place in moved {
            if (place.offset as u64) < end {
                return false;
            }
            end = place.offset as u64 + self.size_at(place.uid) as u64;
        }
        true
    }

    /// Whether no two of the moved regions overlap, by looking at each two.
    fn none_overlap(&self, moved: &[MapPlace]) -> bool
        ensures { IsTrue result ↔ AllPairs (ArePlacedApart self.now.meaning) moved.now }
    {
        let mut rest = moved;
        while let Some((first, behind)) = rest.split_first() {
            if !self.lies_apart(first, behind) {
                return false;
            }
            rest = behind;
        }
        true
    }

    fn lies_apart(&self, place: &MapPlace, others: &[MapPlace]) -> bool
        ensures { IsTrue result ↔ All (ArePlacedApart self.now.meaning place.now) others.now }
    {
        others.iter().all(|other| self.lie_apart(place, other))
    }

    fn lie_apart(&self, a: &MapPlace, b: &MapPlace) -> bool
        ensures { IsTrue result ↔ ArePlacedApart self.now.meaning a.now b.now }
    {
        a.offset as u64 + self.size_at(a.uid) as u64 <= b.offset as u64
            || b.offset as u64 + self.size_at(b.uid) as u64 <= a.offset as u64
    }

    /// The size of a record's region, 0 where there is no record.
    fn size_at(&self, uid: MapUid) -> u32
        ensures { result ≡ size_at self.now.meaning uid.0 }
    {
        self.find(uid).map_or(0, |record| record.row.size)
    }
}

/// Whether the numbers of the lists rise, and the file's number is one.
fn are_lists(file: FileNo, moved: &[MapPlace], dropped: &[MapUid]) -> bool
    ensures { IsTrue result ↔ (IsNumber file.0 × IsStrictlyIncreasing (map (λ p. p.uid.0) moved.now) × IsStrictlyIncreasing (map (λ u. u.0) dropped.now)) }
{
    is_number(file.0) && rise(moved) && rise(dropped)
}

/// Whether this is the number of another file.
fn is_other(file: FileNo, target: u32) -> bool
    ensures { IsTrue result ↔ (IsNumber target × (target ≢ file.0)) }
{
    is_number(target) && target != file.0
}
