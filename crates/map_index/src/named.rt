// Records that the lists of an entry name.
ghost use Rattle.std.specs.Prelude.{◌≡◌, ◌==◌, map, not, IsTrue, ◌↔◌};
ghost use Rattle.std.specs.List.{list_any};
ghost use Rattle.std.specs.List.Sorted.{IsStrictlyIncreasing};
ghost use Rattle.model_meaning.specs.MapMeaning.{has_map_uid};

use crate::numbers::NamesRecord;
use mdbox_base::{MapPlace, MapUid};

/// Whether the map uids rise strictly.
pub fn rise<T: NamesRecord>(items: &[T]) -> bool
    ensures { IsTrue result ↔ IsStrictlyIncreasing (map T.uid_of items.now) }
{
    for place in 1..items.len() {
        let low = items[place - 1].uid();
        let high = items[place].uid();
        if high <= low {
            return false;
        }
    }
    true
}

/// Whether an item of the rising list names this map uid, by search.
fn names<T: NamesRecord>(items: &[T], uid: MapUid) -> bool
    requires { IsStrictlyIncreasing (map T.uid_of items.now) }
    ensures { result ≡ list_any (λ x. T.uid_of x == uid.0) items.now }
{
    items
        .binary_search_by_key(&uid.0, |item| item.uid())
        .is_ok()
}

/// Whether a map uid is in one of the rising lists, and not in both.
pub fn is_named(uid: MapUid, moved: &[MapPlace], dropped: &[MapUid]) -> bool
    requires moved { IsStrictlyIncreasing (map (λ p. p.uid.0) moved.now) }
    requires dropped { IsStrictlyIncreasing (map (λ u. u.0) dropped.now) }
    ensures { IsTrue result ↔ (list_any (λ p. p.uid.0 == uid.0) moved.now ≡ not (has_map_uid uid.0 dropped.now)) }
{
    names(moved, uid) != names(dropped, uid)
}
