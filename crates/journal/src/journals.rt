// Laws of the journal.
ghost use Rattle.std.specs.Prelude.{◌≡◌, ◌≢◌, ◌≤◌, ◌+◌, ◌++◌, ◌∷◌, ℕ, Bool, List, [], Option, Some, All, map, length, count_by};
ghost use Rattle.disk_model.specs.Disk.{Faults};
ghost use Rattle.mdbox_base.specs.declared.ids.Uid.{Uid};
ghost use Rattle.mdbox_base.specs.declared.requests.Request.{Request};
ghost use Rattle.mdbox_base.specs.declared.requests.Request.TheVariants as request;
ghost use Rattle.mdbox_base.specs.declared.replies.Reply.{Reply};
ghost use Rattle.mdbox_base.specs.declared.replies.Reply.TheVariants as reply;
ghost use Rattle.model_lists.specs.Lists.{Lists, refs_of};
ghost use Rattle.list_machine.specs.Run.{Run, RunEvent, and_then};
ghost use Rattle.journal.specs.Journal.{Requests, halves_of, JournalStep, IsStep, AreSteps, left_by, IsFirstPart, HasReply, IsReplyOf, IsLegal, is_read_fault};
ghost use Rattle.mdbox_base.specs.declared.script.Half.TheVariants.{CopyHalf, ExpungeHalf};
ghost use Rattle.journal.specs.GoesOn.{event_at, IsOneStep, AnswersAlone, all_added, all_taken, MayCome, RepliesAlso, MayReply};
ghost use Rattle.list_machine.specs.Machine.{expunge};

/// A journal is determined by the lists at the start and by which events of the run made its steps: so are the lists that
/// its first entries leave, whatever their number.
pub fn a_journal_is_one()
    ensures { (run : Run) (script : Requests) (start : Lists) (a b : List JournalStep) → AreSteps run script start a → AreSteps run script start b → map event_at a ≡ map event_at b → a ≡ b }
{}

/// A legal journal begins empty, and stays legal with each event, step, reply and fault that may come.
pub fn a_legal_journal_goes_on()
    ensures start { (start : Lists) (script : Requests) (run : Run) (replies : List (Option Reply)) (now : Faults) → run.events ≡ [] → ((i : ℕ) (given : Reply) → HasReply replies i given → ⊥) → count_by is_read_fault replies ≡ 0 → IsLegal start script run [] replies now now }
    ensures quiet { (start : Lists) (script : Requests) (run : Run) (journal : List JournalStep) (replies : List (Option Reply)) (old new : Faults) (event : RunEvent) → IsLegal start script run journal replies old new → All (λ e. e.moment ≤ event.moment) run.events → IsLegal start script (and_then run event) journal replies old new }
    ensures step { (start : Lists) (script : Requests) (run : Run) (journal : List JournalStep) (replies : List (Option Reply)) (old new : Faults) (event : RunEvent) (step : JournalStep) → IsLegal start script run journal replies old new → All (λ e. e.moment ≤ event.moment) run.events → step.event ≡ length run.events
        → IsStep (and_then run event) script (left_by start journal) step → MayCome script journal replies step → IsLegal start script (and_then run event) (journal ++ step ∷ []) replies old new }
    ensures reply { (start : Lists) (script : Requests) (run : Run) (journal : List JournalStep) (before after : List (Option Reply)) (old new : Faults) (i : ℕ) (given : Reply) → IsLegal start script run journal before old new → RepliesAlso before after i given → MayReply script run journal before after old new i given → IsLegal start script run journal after old new }
    ensures faults { (start : Lists) (script : Requests) (run : Run) (journal : List JournalStep) (replies : List (Option Reply)) (old new more : Faults) → IsLegal start script run journal replies old new → new.reads ≤ more.reads → new.changes ≤ more.changes → IsLegal start script run journal replies old more }
{}

/// The references to a GUID change as the steps of the journal do.
pub fn journals_change_references()
    ensures { (run : Run) (script : Requests) (old : Lists) (steps : List JournalStep) (guid : List ℕ) (s : AreSteps run script old steps) → refs_of (left_by old steps) guid + all_taken run script old steps guid s ≡ refs_of old guid + all_added run script old steps guid s }
{}

/// A request alone, but a move, is answered as the machine does on the lists at the start, at an event of the run, unless
/// lack of memory, a fault or damage ends it.
pub fn a_request_alone()
    ensures { (start : Lists) (asked : ℕ × Request) (run : Run) (journal : List JournalStep) (given : Reply) (old new : Faults) → IsLegal start (asked ∷ []) run journal (Some given ∷ []) old new → IsOneStep asked.1 given → (left : Lists) × AnswersAlone run start asked.1 given left }
{}

/// No legal journal has a move's expunge before its copy, a reply without its step, another UID than the copy's, or a second
/// answer at one event.
pub fn wrong_journals()
    ensures early { (name target : List ℕ) (uid : Uid) → IsFirstPart (ExpungeHalf ∷ CopyHalf ∷ []) (halves_of (request.Move name uid target)) → ⊥ }
    ensures dropped { (name : List ℕ) (uid : Uid) → IsReplyOf (request.Expunge name uid) [] reply.Done → ⊥ }
    ensures other { (name target : List ℕ) (uid copied other : Uid) (gone : Bool) → IsReplyOf (request.Move name uid target) (reply.Copied copied ∷ reply.Moved copied gone ∷ []) (reply.Moved other gone) → copied ≡ other }
    ensures second { (run : Run) (script : Requests) (old : Lists) (step : JournalStep) (second : Reply) → IsStep run script old step → second ≢ step.answer → IsStep run script old (record step { answer = second }) → ⊥ }
{}
