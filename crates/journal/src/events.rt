// Laws of the events of a run.
ghost use Rattle.std.specs.Prelude.{◌≡◌, ◌≤◌, ◌+◌, ◌++◌, ◌∷◌, ℕ, List, [], Option, Some, None, map, length, slice_get, count_by};
ghost use Rattle.disk_model.specs.Disk.{Faults};
ghost use Rattle.mdbox_base.specs.declared.ids.Uid.{Uid};
ghost use Rattle.mdbox_base.specs.declared.entries.Highest.{Highest};
ghost use Rattle.mdbox_base.specs.declared.entries.MapEntry.{MapEntry};
ghost use Rattle.mdbox_base.specs.declared.entries.MapEntry.TheVariants as entry;
ghost use Rattle.mdbox_base.specs.declared.requests.Request.{Request};
ghost use Rattle.mdbox_base.specs.declared.requests.Request.TheVariants as request;
ghost use Rattle.mdbox_base.specs.declared.replies.Reply.{Reply};
ghost use Rattle.mdbox_base.specs.declared.replies.Reply.TheVariants as reply;
ghost use Rattle.model_lists.specs.Lists.{Mailbox, Lists};
ghost use Rattle.model_meaning.specs.MapMeaning.{MapRecord, MapMeaning, map_meaning, map_applied, no_numbers};
ghost use Rattle.model_meaning.specs.MapFits.{MapFits};
ghost use Rattle.list_machine.specs.Run.{First, Run, RunEvent, and_then, map_of, drawn_also, own_events};
ghost use Rattle.journal.specs.Journal.{is_read_fault, Requests, JournalStep, AreSteps, left_by, IsLegal};
ghost use Rattle.journal.specs.GoesOn.{AllMayCome};
ghost use Rattle.journal.specs.Events.{is_faulted, Around, IsRecord, IsNextEvent};
ghost use Rattle.journal.specs.Makes.{HasCome, Makes, steps_made, AreNextEvents, AreReplies};
ghost use Rattle.list_machine.specs.Machine.{mailbox_named, expunge, first_refusal, part_checks};
ghost use Rattle.journal.specs.Stages.{ToRemove, ToLower, IsAtStage, removal};

/// A store and a run go on together: without events the run has come to its start, an event that appends nothing to the map
/// and draws nothing leaves map and numbers, and one that appends an entry applies it.
pub fn runs_come_on()
    ensures start { (store : List ℕ) (start : List MapEntry) (opened : Highest) (barred : List ℕ) (calls : ℕ) → HasCome (record { store = store; start = start; opened = opened; barred = barred; events = [] }) (map_meaning store start) opened calls }
    ensures nothing { (run : Run) (event : RunEvent) (m : MapMeaning) (drawn : Highest) (calls : ℕ) → HasCome run m drawn calls → calls ≤ event.moment → event.map_entries ≡ [] → event.drew ≡ no_numbers → HasCome (and_then run event) m drawn event.moment }
    ensures entry { (run : Run) (event : RunEvent) (entry : MapEntry) (m : MapMeaning) (drawn : Highest) (calls : ℕ) → HasCome run m drawn calls → calls ≤ event.moment → event.map_entries ≡ entry ∷ [] → HasCome (and_then run event) (map_applied entry m) (drawn_also drawn event.drew) event.moment }
{}

/// A run in which each event was the next of its lane goes on with one that is, and the step that it made.
pub fn runs_go_on()
    ensures { (around after : ℕ → Around) (script : Requests) (start : Lists) (run : Run) (journal : List JournalStep) (request : Request) (event : RunEvent) (answer : Option Reply) (left : Lists) → AreSteps run script start journal → AreNextEvents around after script start run journal
        → IsNextEvent (around (length run.events)) (after (length run.events)) script run (left_by start journal) event → AreNextEvents around after script start (and_then run event) (journal ++ steps_made run request event answer left) }
{}

/// Replies of read faults are at most as many as the events that a read fault refused.
pub fn read_faults_have_events()
    ensures { (around after : ℕ → Around) (script : Requests) (start : Lists) (run : Run) (journal : List JournalStep) (replies : List (Option Reply)) → AreNextEvents around after script start run journal → AreReplies script run replies → count_by is_read_fault replies ≤ count_by is_faulted run.events }
{}

/// Where a task tells what its step made, the journal goes on by it.
pub fn tasks_make_journals()
    ensures { (start : Lists) (script : Requests) (run : Run) (journal : List JournalStep) (replies : List (Option Reply)) (old new : Faults) (around after : Around) (lane place : ℕ) (request : Request) (left : Lists) (m later : MapMeaning) (drawn drawn_then : Highest) (calls calls_then : ℕ) (ended : Option Reply)
        → IsLegal start script run journal replies old new → HasCome run m drawn calls → calls ≤ calls_then → slice_get script place ≡ Some (lane, request) → (k : Makes around after run lane place request (left_by start journal) left later drawn_then calls_then ended)
        → AllMayCome script journal replies (steps_made run request k.event k.answer left) → IsLegal start script (and_then run k.event) (journal ++ steps_made run request k.event k.answer left) replies old new }
{}

/// What the two events of an expunge make, of every run that has come to where the store stood.
pub fn expunges_make_two_events()
    ensures removal { (around after : Around) (run : Run) (lane place : ℕ) (name : List ℕ) (uid : Uid) (old : Lists) (m : MapMeaning) (drawn : Highest) (calls later : ℕ) (mailbox : Mailbox) (row : MapRecord) → HasCome run m drawn calls → calls ≤ later → IsAtStage ToRemove (own_events place run)
        → first_refusal run old (part_checks run (removal lane place mailbox uid row.uid later) (request.Expunge name uid) First) ≡ None → mailbox_named name old ≡ Some mailbox → IsRecord run old name uid.0 row → (k : Makes around after run lane place (request.Expunge name uid) old (expunge name uid.0 old) m drawn later None)
        × IsAtStage (ToLower row.uid) (own_events place run ++ k.event ∷ []) }
    ensures lowering { (around after : Around) (run : Run) (lane place : ℕ) (name : List ℕ) (uid : Uid) (old : Lists) (m : MapMeaning) (drawn : Highest) (calls later owed : ℕ) → HasCome run m drawn calls → calls ≤ later → IsAtStage (ToLower owed) (own_events place run)
        → MapFits (map_of run) (entry.D (record { 0 = owed } ∷ [])) → Makes around after run lane place (request.Expunge name uid) old old (map_applied (entry.D (record { 0 = owed } ∷ [])) m) (drawn_also drawn no_numbers) later (Some reply.Done) }
{}
