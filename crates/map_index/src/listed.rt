// Records that the lists of an entry name, changed one after another.
ghost use Rattle.std.specs.Prelude.{◌≡◌, map};
ghost use Rattle.std.specs.List.Sorted.{IsStrictlyIncreasing};
ghost use Rattle.model_meaning.specs.MapMeaning.{record_changed};
ghost use Rattle.mdbox_base.specs.declared.entries.MapEntry.TheVariants as entry;
ghost use Rattle.map_rows.specs.Lookups.{lowered_by};

use map_rows::Table;
use mdbox_base::{MapCount, MapUid};

/// Lowers the count of each record that the list names.
pub fn lower_each(records: &mut Table, uids: &[MapUid])
    requires { IsStrictlyIncreasing (map (λ u. u.0) uids.now) }
    ensures { records.new ≡ record records.old { records = map (record_changed (entry.D uids.now)) records.old.records } }
{
    for uid in uids {
        records.lower(*uid);
    }
}

/// Sets the count of each record that the list names.
pub fn set_counts(records: &mut Table, counts: &[MapCount])
    requires { IsStrictlyIncreasing (map (λ c. c.uid.0) counts.now) }
    ensures { records.new ≡ record records.old { records = map (record_changed (entry.T counts.now)) records.old.records } }
{
    for given in counts {
        records.set_count(*given);
    }
}

/// Lowers the count of each record that the list names, by its amount.
pub fn lower_by_each(records: &mut Table, amounts: &[MapCount])
    requires { IsStrictlyIncreasing (map (λ c. c.uid.0) amounts.now) }
    ensures { records.new ≡ record records.old { records = map (lowered_by amounts.now) records.old.records } }
{
    for given in amounts {
        records.lower_by(*given);
    }
}
