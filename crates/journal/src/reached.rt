// Laws of the lists that a crash may leave.
ghost use Rattle.std.specs.Prelude.{Some, ◌≢◌, ◌≡◌, ◌≤◌, ◌<◌, ◌+◌, ◌++◌, ◌∷◌, ℕ, List, [], All, length};
ghost use Rattle.model_lists.specs.Lists.{Lists};
ghost use Rattle.list_machine.specs.Run.{Run, RunEvent, and_then};
ghost use Rattle.mdbox_base.specs.declared.replies.Refusal.TheVariants as refusal;
ghost use Rattle.journal.specs.Journal.{Requests, JournalStep, IsStep, left_by, Broken, no_broken, AreBroken, IsOfFailure, Reached};
ghost use Rattle.journal.specs.GoesOn.{broken_by};

/// What a journal leaves is reached at each moment, and what was reached before an event ended stays so.
pub fn reached_lists_stay()
    ensures last { (start : Lists) (run : Run) (journal : List JournalStep) (broken : Broken) (m : ℕ) → Reached start run journal broken m (left_by start journal) }
    ensures quiet { (start : Lists) (run : Run) (event : RunEvent) (journal : List JournalStep) (broken : Broken) (m : ℕ) (lists : Lists) → All (λ s. s.event < length run.events) journal → Reached start run journal broken m lists → Reached start (and_then run event) journal broken m lists }
    ensures step { (start : Lists) (run : Run) (event : RunEvent) (journal : List JournalStep) (step : JournalStep) (m : ℕ) (lists : Lists) → All (λ s. s.event < length run.events) journal → step.event ≡ length run.events → m < event.moment → Reached start run journal no_broken m lists → Reached start (and_then run event) (journal ++ step ∷ []) no_broken m lists }
{}

/// Where an append fails, what its event would have made is the broken step, and its lists are reached from the moment on
/// at which the append began.
pub fn failed_appends_are_reached()
    ensures none { (run : Run) → IsOfFailure run no_broken }
    ensures failure { (run : Run) (failed would : RunEvent) (began : ℕ) (step : JournalStep) → All (λ e. e.refused ≢ Some refusal.Stopped) run.events → All (λ e. e.moment ≤ began) run.events → failed.refused ≡ Some refusal.Stopped → would.lane ≡ failed.lane → would.request ≡ failed.request → would.part ≡ failed.part
        → step.event ≡ length run.events → IsOfFailure (and_then run failed) (broken_by run would began step) }
    ensures still { (run : Run) (event : RunEvent) (broken : Broken) → broken.place ≤ length run.events → IsOfFailure run broken → IsOfFailure (and_then run event) broken }
    ensures broken { (run : Run) (script : Requests) (start : Lists) (journal : List JournalStep) (failed would : RunEvent) (began : ℕ) (step : JournalStep) → IsStep (and_then run would) script (left_by start journal) step → AreBroken (and_then run failed) script start journal (broken_by run would began step) }
    ensures before { (start : Lists) (run : Run) (journal : List JournalStep) (broken : Broken) (m : ℕ) (lists : Lists) → Reached start run journal no_broken m lists → Reached start run journal broken m lists }
    ensures after { (start : Lists) (run : Run) (journal : List JournalStep) (broken : Broken) (m : ℕ) → broken.began ≤ m → Reached start run journal broken m (left_by (left_by start journal) broken.steps) }
{}
