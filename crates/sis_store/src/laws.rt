// Laws of candidates, and of the instances that come next.
ghost use Rattle.std.specs.Prelude.{◌≡◌, ◌≢◌, ◌<◌, ◌≤◌, true, false, ℕ, List, All, AllPairs, Option, Some, None};
ghost use Rattle.disk_model.specs.Disk.{Between, History, IfTold, reading};
ghost use Rattle.mdbox_base.specs.declared.ids.Hash.{Hash};
ghost use Rattle.mdbox_base.specs.declared.ids.InstId.{InstId};
ghost use Rattle.mdbox_base.specs.declared.ids.StoreId.{StoreId};
ghost use Rattle.sis_store.specs.declared.instance.KnownInstance.{KnownInstance};
ghost use Rattle.sis_store.specs.Instances.{InstancesValue, AreInstances, IsIdBefore, IsInstanceKnown, after_placing, candidate_in, is_id_past, is_of_kind, instance_past, unheld_past, holders_in};
ghost use Rattle.sis_store.specs.OnDisk.{file_of, instance_file, IsUnlikeKnown};
ghost use Rattle.sis_store.specs.Comparing.{IsUnlikeUpTo, IsUnlikeCompared, candidates_left};

/// Whoever compares one candidate after another, and finds none with these octets, may place them: no known instance of
/// this hash and size has them. With each candidate fewer are left.
pub fn candidates_are_compared()
    ensures none_yet { (hash : Hash) (size : ℕ) (octets : List ℕ) (known : List KnownInstance) (history : Option History) → IsUnlikeUpTo hash size octets None known history }
    ensures one_more { (hash : Hash) (size : ℕ) (octets : List ℕ) (after : Option InstId) (id : InstId) (known : List KnownInstance) (history : Option History) → AllPairs (λ a b. IsIdBefore a.row.id b.row.id) known → IsUnlikeUpTo hash size octets after known history → candidate_in hash size after known ≡ Some id
        → IfTold history (λ disk. reading (disk (file_of id known)) ≢ Some octets) → IsUnlikeUpTo hash size octets (Some id) known history }
    ensures all { (hash : Hash) (size : ℕ) (octets : List ℕ) (after : Option InstId) (known : List KnownInstance) (history : Option History) → IsUnlikeUpTo hash size octets after known history → candidate_in hash size after known ≡ None → IsUnlikeKnown hash size octets known history }
    ensures known { (hash : Hash) (size : ℕ) (after : Option InstId) (id : InstId) (known : List KnownInstance) → AllPairs (λ a b. IsIdBefore a.row.id b.row.id) known → candidate_in hash size after known ≡ Some id → IsInstanceKnown id known }
    ensures fewer { (hash : Hash) (size : ℕ) (after : Option InstId) (id : InstId) (known : List KnownInstance) → candidate_in hash size after known ≡ Some id → candidates_left hash size (Some id) known < candidates_left hash size after known }
{}

/// No known instance of the candidate's hash and size stands between `after` and it.
pub fn candidates_come_first()
    ensures { (hash : Hash) (size : ℕ) (after : Option InstId) (id : InstId) (known : List KnownInstance) → AllPairs (λ a b. IsIdBefore a.row.id b.row.id) known → candidate_in hash size after known ≡ Some id → All (λ k. is_of_kind hash size k.row ≡ true → IsIdBefore k.row.id id → is_id_past after k.row.id ≡ false) known }
{}

/// What was compared stays compared, whatever is placed since: it is said of the instances alone that were known when `drawn` was
/// the greatest running number drawn. While it is, that is all of them.
pub fn compared_ones_stay()
    ensures begun { (store : StoreId) (hash : Hash) (size : ℕ) (octets : List ℕ) (drawn : ℕ) (known : List KnownInstance) (history : Option History) → IsUnlikeCompared store hash size octets None drawn known history }
    ensures noted { (store : StoreId) (hash : Hash) (size : ℕ) (octets : List ℕ) (after : Option InstId) (drawn : ℕ) (known : List KnownInstance) (history : Option History) → IsUnlikeUpTo hash size octets after known history → IsUnlikeCompared store hash size octets after drawn known history }
    ensures all { (value : InstancesValue) (hash : Hash) (size : ℕ) (octets : List ℕ) (after : Option InstId) (history : Option History) → AreInstances value → IsUnlikeCompared value.store hash size octets after value.highest value.known history → IsUnlikeUpTo hash size octets after value.known history }
    ensures placed { (value : InstancesValue) (new_hash hash : Hash) (new_size size : ℕ) (octets : List ℕ) (after : Option InstId) (drawn : ℕ) (before now : Option History) → value.highest < 4294967294 → drawn ≤ value.highest → Between (λ a b. All (λ k. reading (b (instance_file k.row)) ≡ reading (a (instance_file k.row))) value.known) before now
        → IsUnlikeCompared value.store hash size octets after drawn value.known before → IsUnlikeCompared value.store hash size octets after drawn (after_placing new_hash new_size value).known now }
{}

/// The instance that comes next is known, and of those that nobody holds nobody holds it.
pub fn next_ones_are_known()
    ensures next { (after : Option InstId) (id : InstId) (known : List KnownInstance) → AllPairs (λ a b. IsIdBefore a.row.id b.row.id) known → instance_past after known ≡ Some id → IsInstanceKnown id known }
    ensures unheld { (after : Option InstId) (id : InstId) (known : List KnownInstance) → AllPairs (λ a b. IsIdBefore a.row.id b.row.id) known → unheld_past after known ≡ Some id → IsInstanceKnown id known × (holders_in id known ≡ 0) }
{}
