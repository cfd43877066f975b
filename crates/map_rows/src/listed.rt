// Searches in the lists of a purge, which rise by map uid.
ghost use Rattle.std.specs.Prelude.{◌≡◌, map};
ghost use Rattle.std.specs.List.Sorted.{IsStrictlyIncreasing};
ghost use Rattle.model_meaning.specs.MapMeaning.{has_map_uid, place_given};

use mdbox_base::{MapPlace, MapUid};

/// The place that a list gives a record. None if and only if it gives none.
pub fn place_given(moved: &[MapPlace], uid: MapUid) -> Option<MapPlace>
    requires { IsStrictlyIncreasing (map (λ p. p.uid.0) moved.now) }
    ensures { result ≡ place_given uid.0 moved.now }
{
    match moved.binary_search_by_key(&uid.0, |place| place.uid.0) {
        Ok(at) => Some(moved[at]),
        Err(_) => None,
    }
}

/// Whether a list names a record.
pub fn is_listed(uids: &[MapUid], uid: MapUid) -> bool
    requires { IsStrictlyIncreasing (map (λ u. u.0) uids.now) }
    ensures { result ≡ has_map_uid uid.0 uids.now }
{
    uids.binary_search_by_key(&uid.0, |other| other.0).is_ok()
}
