// Known instances in order of id, and the look-ups among them.
ghost use Rattle.std.specs.Prelude.{◌≡◌, ◌≢◌, ◌+◌, ◌<◌, ◌≤◌, ℕ, sum_by, true, false, length, take, drop, slice_get, All, AllPairs, Some, IfSome, IsNone, vec_len, vec_capacity};
ghost use Rattle.sis_store.specs.declared.instance.KnownInstance.{KnownInstance};
ghost use Rattle.sis_store.specs.Instances.{IsIdBefore, is_id_past, instance_in, with_holders, with_instance, without_instance};

use crate::instance::KnownInstance;
use mdbox_base::InstId;

/// The instance of an id.
pub(crate) fn find(known: &[KnownInstance], id: InstId) -> Option<KnownInstance>
    requires { AllPairs (λ a b. IsIdBefore a.row.id b.row.id) known.now }
    ensures { result ≡ instance_in id known.now }
{
    match place_of(known, id) {
        Some(at) => Some(known[at]),
        None => None,
    }
}

/// Sets how many hold the instance of an id.
pub(crate) fn set_holders(known: &mut [KnownInstance], id: InstId, holders: u32)
    requires { AllPairs (λ a b. IsIdBefore a.row.id b.row.id) known.old }
    ensures { known.new ≡ with_holders id holders known.old }
{
    if let Some(at) = place_of(known, id) {
        known[at].holders = holders;
    }
}

/// Puts an instance at its place. Its id isn't known, and there is room for it.
pub(crate) fn add(known: &mut Vec<KnownInstance>, new: KnownInstance)
    requires rising { AllPairs (λ a b. IsIdBefore a.row.id b.row.id) known.old.items }
    requires unknown { All (λ k. k.row.id ≢ new.row.id) known.old.items }
    requires room { vec_len known.old < vec_capacity known.old }
    ensures items { known.new.items ≡ with_instance new known.old.items }
    ensures same { (f : KnownInstance → ℕ) → sum_by f known.new.items ≡ f new + sum_by f known.old.items }
{
    let place = place_past(known, Some(new.row.id));
    match known.insert(place, new) {
        Ok(()) => {}
        Err(_) => unreachable!(),
    }
}

/// Leaves out the instance of an id.
pub(crate) fn leave_out(known: &mut Vec<KnownInstance>, id: InstId)
    requires { AllPairs (λ a b. IsIdBefore a.row.id b.row.id) known.old.items }
    ensures items { known.new.items ≡ without_instance id known.old.items }
    ensures same { (k : KnownInstance) (f : KnownInstance → ℕ) → instance_in id known.old.items ≡ Some k → sum_by f known.old.items ≡ f k + sum_by f known.new.items }
{
    if let Some(at) = place_of(known, id) {
        let _ = known.remove(at);
    }
}

/// The place of the instance of an id, by search.
fn place_of(known: &[KnownInstance], id: InstId) -> Option<usize>
    requires { AllPairs (λ a b. IsIdBefore a.row.id b.row.id) known.now }
    ensures some { IfSome result (λ at. (k : KnownInstance) × (slice_get known.now at ≡ Some k) × (k.row.id ≡ id)) }
    ensures none { IsNone result → All (λ k. k.row.id ≢ id) known.now }
{
    match known.binary_search_by_key(&id, |k| k.row.id) {
        Ok(at) => Some(at),
        Err(_) => None,
    }
}

/// The place of the first instance whose id is past this one, by search; without one, of the first of all.
pub(crate) fn place_past(known: &[KnownInstance], after: Option<InstId>) -> usize
    requires { AllPairs (λ a b. IsIdBefore a.row.id b.row.id) known.now }
    ensures within { result ≤ length known.now }
    ensures before { All (λ k. is_id_past after k.row.id ≡ false) (take result known.now) }
    ensures behind { All (λ k. is_id_past after k.row.id ≡ true) (drop result known.now) }
{
    match after {
        Some(after) => match known.binary_search_by_key(&after, |k| k.row.id) {
            Ok(at) => at + 1,
            Err(at) => at,
        },
        None => 0,
    }
}
