// What is seen of a store.
ghost use Rattle.std.specs.Prelude.{◌≡◌, ℕ, false};
ghost use Rattle.disk_model.specs.Disk.{History, Faults, told_calls};
ghost use Rattle.std.specs.Prelude.{Option};
ghost use Rattle.list_machine.specs.Run.{Run};
ghost use Rattle.journal.specs.Makes.{HasCome};
ghost use Rattle.store_core.specs.Value.{StoreValue};
ghost use Rattle.task_steps.specs.Step.{HasComeTo};
ghost use Rattle.task_steps.specs.Tells.{TellsSame};
ghost use Rattle.store_seen.specs.Seeing.{seen_of, IsAtOpening};

/// A run without events has come to a store as it was opened; and a store whose storage files and instances are as they were, and
/// that has drawn no number of either, tells the same of them.
pub fn stores_are_seen<D>()
    ensures first { (run : Run) (store : StoreValue D) (history : Option History) (faults : Faults) → IsAtOpening run store → HasCome run store.map store.drawn (told_calls history) → HasComeTo run (seen_of (λ file. 0) store history faults) }
    ensures same { (pins : ℕ → ℕ) (old new : StoreValue D) (before after : Option History) (began now : Faults) → (new.stopped ≡ false → old.stopped ≡ false) → new.map.store ≡ old.map.store → new.drawn.file ≡ old.drawn.file → new.drawn.instance ≡ old.drawn.instance → new.files ≡ old.files → new.instances ≡ old.instances
        → TellsSame (seen_of pins old before began) (seen_of pins new after now) }
{}
