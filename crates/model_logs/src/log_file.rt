// Laws of logs.
ghost use Rattle.std.specs.Prelude.{◌≡◌, ◌∷◌, [], ℕ, List, Option, length, IfSome, ◌⊎◌};
ghost use Rattle.mdbox_base.specs.Words.{IsOctets};
ghost use Rattle.model_logs.specs.declared.log_head.LogHead.{LogHead};
ghost use Rattle.model_logs.specs.LogFile.{HeadFits, IsLog, IsTaken, IsDamagedAt, record_places, log_end};
ghost use Rattle.model_logs.specs.LogExamples.{root_log, example_root_head, root_entry, box_log, example_box_head, box_entry, old_log, example_old_head, old_entry, map_log, example_map_head, map_made, map_stored};

/// Octets are one log at most.
pub fn one_log()
    ensures { (octets : List ℕ) (h k : LogHead) (es fs : List (List ℕ)) → IsLog octets h es → IsLog octets k fs → (h ≡ k) × (es ≡ fs) }
{}

/// Octets are damaged at one place at most, and not where they are a log whose head is taken.
pub fn one_damage()
    ensures place { (asked : Option LogHead) (octets : List ℕ) (m n : ℕ) → IsDamagedAt asked octets m → IsDamagedAt asked octets n → m ≡ n }
    ensures no_log { (asked : Option LogHead) (octets : List ℕ) (head : LogHead) (entries : List (List ℕ)) (place : ℕ) → IsLog octets head entries → IsTaken asked head → IsDamagedAt asked octets place → ⊥ }
{}

/// Octets are a log with a head that is taken, or damaged at a place.
pub fn log_or_damage()
    ensures { (asked : Option LogHead) (octets : List ℕ) → IsOctets octets → IfSome asked HeadFits → ((head : LogHead) × (entries : List (List ℕ)) × IsTaken asked head × IsLog octets head entries) ⊎ ((place : ℕ) × IsDamagedAt asked octets place) }
{}

/// The root log, the mailbox log (in both versions) and the map log of a store with one message.
pub fn log_examples()
    ensures root { IsLog root_log example_root_head (root_entry ∷ []) }
    ensures root_places { (length root_log ≡ 36) × (record_places (root_entry ∷ []) ≡ 26 ∷ []) × (log_end (root_entry ∷ []) ≡ 35) }
    ensures mailbox { IsLog box_log example_box_head (box_entry ∷ []) }
    ensures mailbox_places { (record_places (box_entry ∷ []) ≡ 26 ∷ []) × (log_end (box_entry ∷ []) ≡ 69) }
    ensures old_mailbox { IsLog old_log example_old_head (old_entry ∷ []) }
    ensures old_mailbox_places { (record_places (old_entry ∷ []) ≡ 26 ∷ []) × (log_end (old_entry ∷ []) ≡ 68) }
    ensures map { IsLog map_log example_map_head (map_made ∷ map_stored ∷ []) }
    ensures map_places { (record_places (map_made ∷ map_stored ∷ []) ≡ 26 ∷ 46 ∷ []) × (log_end (map_made ∷ map_stored ∷ []) ≡ 88) }
{}
