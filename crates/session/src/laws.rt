// What a request that is done leaves of a disk.
ghost use Rattle.std.specs.Prelude.{◌≡◌, ◌++◌, ◌∷◌, false, [], ℕ, List};
ghost use Rattle.mdbox_base.specs.declared.requests.Request.{Request};
ghost use Rattle.model_lists.specs.Lists.{Lists};
ghost use Rattle.model_store.specs.Settled.{IsSettledFor};
ghost use Rattle.list_machine.specs.Run.{Run, RunEvent};
ghost use Rattle.journal.specs.Journal.{Broken, JournalStep, Requests, left_by};
ghost use Rattle.task_steps.specs.Step.{Seen};
ghost use Rattle.lanes.specs.Asked.{HasNoIdleTurn};
ghost use Rattle.lanes.specs.Worlds.{IsWorldOf, WorldValue, and_events};
ghost use Rattle.session.specs.OneRequest.{IsUnderWay};

use disk_model::Disk;

/// A world of a script becomes one of the script with the request that is asked of it and whose events follow, if the disk was settled for
/// the lists at the opening; and then, unless the store is stopped, it is settled for those that the steps made by now leave: so all that
/// is told by then is in what opens afterwards.
pub fn requests_done_are_settled<D: Disk>()
    ensures { (start : Lists) (script : Requests) (run : Run) (steps : List JournalStep) (failed : Broken) (began : Seen) (asked : ℕ × Request) (old new : WorldValue D) → IsSettledFor start began.history → HasNoIdleTurn old → IsWorldOf start script run steps failed began (D.history old.store.disk) (D.faults old.store.disk) old → IsUnderWay D.history D.faults asked old new
        → (added : List RunEvent) × (more : List JournalStep) × (broke : Broken) × IsWorldOf start (script ++ asked ∷ []) (and_events run added) (steps ++ more) broke began (D.history new.store.disk) (D.faults new.store.disk) new × (new.store.stopped ≡ false → IsSettledFor (left_by start (steps ++ more)) (D.history new.store.disk)) }
{}
