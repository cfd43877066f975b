// Changes of the records, none of which can fail.
ghost use Rattle.std.specs.Prelude.{◌≡◌, ◌-◌, ◌≤◌, ◌∷◌, ◌++◌, [], length, map, All};
ghost use Rattle.std.specs.List.Sorted.{IsStrictlyIncreasing};
ghost use Rattle.model_meaning.specs.Rows.{rows_by};
ghost use Rattle.model_meaning.specs.MapMeaning.{record_changed, record_rules};
ghost use Rattle.mdbox_base.specs.declared.entries.MapEntry.TheVariants as entry;
ghost use Rattle.map_rows.specs.Lookups.{lowered_by, meant_record};

use super::Table;
use crate::edits;
use crate::keys::{guid_key, place_key};
use crate::rows::Record;
use mdbox_base::{FileNo, MapCount, MapPlace, MapUid};

impl Table {
    ghost use Rattle.map_rows.specs.TableKept.{FitsBehind, CanMoveEach};

    /// Adds a record behind the others.
    pub fn add(&mut self, added: Record)
        requires fits { FitsBehind self.old.records (meant_record added) }
        requires room { 1 ≤ self.old.record_room }
        requires instance_room { length added.instances ≤ self.old.instance_room }
        ensures { self.new ≡ record { records = self.old.records ++ meant_record added ∷ []; record_room = self.old.record_room - 1; instance_room = self.old.instance_room - length added.instances } }
    {
        self.by_guid.add(guid_key(&added));
        self.by_place.add(place_key(&added));
        self.names.known_facts();
        self.names.add_each(added.instances.as_slice());
        self.room -= 1;
        self.records.push_reserved(added);
    }

    /// Raises the count of a record by one, if there is one of this map uid.
    pub fn raise(&mut self, uid: MapUid)
        requires { All (λ row. uid.0 ≡ row.uid → row.count ≤ 65534) self.old.records }
        ensures { self.new ≡ record self.old { records = map (record_changed (entry.U uid)) self.old.records } }
    {
        edits::raise(&mut self.records, uid);
    }

    /// Lowers the count of a record by one, if there is one of this map uid.
    pub fn lower(&mut self, uid: MapUid)
        ensures { self.new ≡ record self.old { records = map (record_changed (entry.D (uid ∷ []))) self.old.records } }
    {
        edits::lower(&mut self.records, uid);
    }

    /// Sets the count of a record, if there is one of this map uid.
    pub fn set_count(&mut self, given: MapCount)
        ensures { self.new ≡ record self.old { records = map (record_changed (entry.T (given ∷ []))) self.old.records } }
    {
        edits::set_count(&mut self.records, given);
    }

    /// Lowers the count of a record by an amount, if there is one of this map uid.
    pub fn lower_by(&mut self, given: MapCount)
        ensures { self.new ≡ record self.old { records = map (lowered_by (given ∷ [])) self.old.records } }
    {
        edits::lower_by(&mut self.records, given);
    }

    /// Moves the records that one list names to their new places in the target, and removes those that the other names,
    /// as an entry says that empties `file`. It takes no memory, and room stays.
    pub fn switch(&mut self, file: FileNo, target: u32, moved: &[MapPlace], dropped: &[MapUid])
        requires moved { IsStrictlyIncreasing (map (λ p. p.uid.0) moved.now) }
        requires dropped { IsStrictlyIncreasing (map (λ u. u.0) dropped.now) }
        requires places { CanMoveEach self.old.records target moved.now }
        ensures { self.new ≡ record self.old { records = rows_by record_rules (entry.P file target moved.now dropped.now) self.old.records } }
    {
        self.by_guid.remove_each(dropped);
        self.by_place.switch(file, target, moved, dropped);
        self.names.remove_each(&self.records, dropped);
        edits::switch_each(&mut self.records, target, moved, dropped);
    }
}
