// Events of tasks compose.
ghost use Rattle.std.specs.Prelude.{◌≡◌, ◌≢◌, ◌⊎◌, true, false, ◌≤◌, ◌<◌, ◌+◌, nat_lt, All, length, ◌++◌, ◌∷◌, [], ℕ, List, Option, Some, None, is_some, map, count_by, slice_get};
ghost use Rattle.std.specs.List.{list_any};
ghost use Rattle.mdbox_base.specs.declared.entries.InstRow.{InstRow};
ghost use Rattle.mdbox_base.specs.declared.requests.Request.{Request};
ghost use Rattle.mdbox_base.specs.declared.replies.Reply.{Reply};
ghost use Rattle.model_lists.specs.Lists.{Mailbox, Lists};
ghost use Rattle.list_machine.specs.Run.{First, RunEvent, Run, and_then, map_of, own_events, reply_of, given_by_others, is_one_of, is_pinned, is_doomed};
ghost use Rattle.journal.specs.Journal.{Requests, JournalStep, left_by, Broken, no_broken, HasReply, is_read_fault, steps_of};
ghost use Rattle.journal.specs.Events.{Around, IsRecord, makes_step, is_faulted, begun_in, ended_in, due_of, number_of, was_pinned};
ghost use Rattle.journal.specs.Found.{is_known_file, is_same_instance, is_known_instance};
ghost use Rattle.journal.specs.Makes.{HasCome, WouldDo, steps_made, AreReplies, AreTold};
ghost use Rattle.journal.specs.GoesOn.{RepliesAlso};
ghost use Rattle.disk_model.specs.Disk.{History, Faults, IfTold, IsImage, reading, told_calls, Grows};
ghost use Rattle.disk_model.specs.FaultCounts.{NoFault};
ghost use Rattle.model_kept.specs.Kept.{MailIsKept};
ghost use Rattle.mdbox_base.specs.declared.ids.Uid.{Uid};
ghost use Rattle.mdbox_base.specs.declared.replies.Reply.TheVariants as reply;
ghost use Rattle.mdbox_base.specs.declared.requests.Request.TheVariants as request;
ghost use Rattle.model_meaning.specs.BoxMeaning.{BoxMeaning};
ghost use Rattle.mdbox_base.specs.declared.entries.MapEntry.TheVariants as entry;
ghost use Rattle.model_meaning.specs.MapFits.{MapFits};
ghost use Rattle.model_meaning.specs.MapMeaning.{MapRecord, is_sealed};
ghost use Rattle.list_machine.specs.Machine.{mailbox_named, expunge, first_refusal, part_checks};
ghost use Rattle.journal.specs.Stages.{Stage, ToRemove, ToLower, removal};
ghost use Rattle.task_steps.specs.ExpungeStages.{StandsAtStage, one_due, behind_box, behind_lowering};
ghost use Rattle.mdbox_base.specs.declared.progress.Did.TheVariants as did;
ghost use Rattle.mdbox_base.specs.declared.script.Half.TheVariants as half;
ghost use Rattle.task_steps.specs.Step.{IsFirmAt, StaysFirm, Seen, ShowsSeen, was_given, was_used, HasComeTo, Leads, and_told, GivesNew, DidEvent, IsKept, HasNotBegun};
ghost use Rattle.task_steps.specs.Tells.{LeavesFiles, TellsSame};
ghost use Rattle.task_steps.specs.Serves.{Serves, IsTurn, Follows};
ghost use Rattle.mdbox_base.specs.declared.progress.Did.{Did};

/// A run of events goes on with one more, whatever task it is of.
pub fn events_go_on()
    ensures start { (start : Lists) (script : Requests) (run : Run) (replies : List (Option Reply)) (now : Seen) → run.events ≡ [] → HasComeTo run now → ShowsSeen now start → now.stopped ≡ false
        → ((i : ℕ) (given : Reply) → HasReply replies i given → ⊥) → count_by is_read_fault replies ≡ 0 → IsFirmAt start now → Serves start script run [] no_broken replies now now }
    ensures on { (start : Lists) (script : Requests) (run : Run) (journal : List JournalStep) (broken : Broken) (replies : List (Option Reply)) (began now new : Seen) (around after : Around) (lane place : ℕ) (request : Request) (how : Did) (ended : Option Reply) → Serves start script run journal broken replies began now
        → IsTurn script journal replies lane place request → (d : DidEvent around after run lane place (map (λ s. s.answer) (steps_of place journal)) request (left_by start journal) now new how ended) → IfTold now.history (λ disk. IsImage disk (λ name. reading (disk name))) → (new.stopped ≡ false → StaysFirm now new)
        → (next : Broken) × Serves start script (and_then run d.makes.event) (journal ++ steps_made run request d.makes.event d.makes.answer d.left) next replies began new
        × (WouldDo script start run journal broken → WouldDo script start (and_then run d.makes.event) (journal ++ steps_made run request d.makes.event d.makes.answer d.left) next) }

    ensures next { (start : Lists) (script : Requests) (run : Run) (journal : List JournalStep) (broken : Broken) (replies : List (Option Reply)) (began now new : Seen) (around after : Around) (lane place : ℕ) (request : Request) (how : Did) (ended : Option Reply) → Serves start script run journal broken replies began now
        → IsTurn script journal replies lane place request → AreReplies script run replies → ((i : ℕ) (q : ℕ × Request) → i < place → slice_get script i ≡ Some q → q.0 ≡ lane → reply_of i run ≢ None) → place < length script
        → (d : DidEvent around after run lane place (map (λ s. s.answer) (steps_of place journal)) request (left_by start journal) now new how ended) → Follows start script run journal
        → Follows start script (and_then run d.makes.event) (journal ++ steps_made run request d.makes.event d.makes.answer d.left) }

    ensures told { (script : Requests) (run : Run) (journal : List JournalStep) (lane : ℕ) (request : Request) (event : RunEvent) (answer : Option Reply) (left : Lists) → slice_get script event.request ≡ Some (lane, request) → is_some answer ≡ makes_step request event.part event.refused
        → AreTold script run journal → AreTold script (and_then run event) (journal ++ steps_made run request event answer left) }

    // An event that ends its request gives its reply.
    ensures reply { (start : Lists) (script : Requests) (run : Run) (journal : List JournalStep) (broken next : Broken) (replies given_also : List (Option Reply)) (began now new : Seen) (around after : Around) (lane place : ℕ) (request : Request) (how : Did) (given : Reply)
        → Serves start script run journal broken replies began now → IsTurn script journal replies lane place request → (d : DidEvent around after run lane place (map (λ s. s.answer) (steps_of place journal)) request (left_by start journal) now new how (Some given))
        → RepliesAlso replies given_also place given → count_by is_read_fault given_also ≤ count_by is_faulted (run.events ++ d.makes.event ∷ [])
        → Serves start script (and_then run d.makes.event) (journal ++ steps_made run request d.makes.event d.makes.answer d.left) next replies began new
        → Serves start script (and_then run d.makes.event) (journal ++ steps_made run request d.makes.event d.makes.answer d.left) next given_also began new }
{}

/// Stages and turns as events go on: the own events of a request, and the answers of its steps, grow by its own events alone.
pub fn stages_stay()
    ensures own { (run : Run) (request : Request) (journal : List JournalStep) (event : RunEvent) (answer : Option Reply) (left : Lists) (place : ℕ) → event.request ≡ place
        → (own_events place (and_then run event) ≡ own_events place run ++ event ∷ []) × (map (λ s. s.answer) (steps_of place (journal ++ steps_made run request event answer left)) ≡ and_told (map (λ s. s.answer) (steps_of place journal)) answer) }
    ensures others { (run : Run) (request : Request) (journal : List JournalStep) (event : RunEvent) (answer : Option Reply) (left : Lists) (other : ℕ) → event.request ≢ other
        → (own_events other (and_then run event) ≡ own_events other run) × (map (λ s. s.answer) (steps_of other (journal ++ steps_made run request event answer left)) ≡ map (λ s. s.answer) (steps_of other journal)) }
    ensures turn { (script : Requests) (run : Run) (journal : List JournalStep) (replies : List (Option Reply)) (lane place : ℕ) (request : Request) (event : RunEvent) (answer : Option Reply) (left : Lists) → event.request ≡ place
        → IsTurn script journal replies lane place request → IsTurn script (journal ++ steps_made run request event answer left) replies lane place request }
    ensures turns { (script : Requests) (run : Run) (journal : List JournalStep) (replies after : List (Option Reply)) (lane place : ℕ) (request : Request) (event : RunEvent) (answer : Option Reply) (left : Lists) (own : ℕ) (other : Request) → event.request ≡ own → event.lane ≢ lane
        → slice_get script own ≡ Some (event.lane, other) → ((j : ℕ) → own ≢ j → slice_get after j ≡ slice_get replies j) → IsTurn script journal replies lane place request → IsTurn script (journal ++ steps_made run other event answer left) after lane place request }
{}

/// What a stage may read of a run beside its request's own events stays too, with every event of another request.
pub fn stages_are_kept()
    ensures unbegun { IsKept HasNotBegun }
    ensures number { (run : Run) (event : RunEvent) (other : ℕ) → event.request ≢ other → number_of (and_then run event) other ≡ number_of run other }
    ensures pinned { (run : Run) (event : RunEvent) (file : ℕ) → list_any (λ e. is_one_of e.doomed file) run.events ≡ true → was_pinned (and_then run event) file ≡ was_pinned run file }
    ensures guid { (run : Run) (event : RunEvent) (other : ℕ) (guid : List ℕ) → event.request ≢ other → GivesNew run event → was_given run guid ≡ true → All (λ g. g ≢ guid) (given_by_others other run) → All (λ g. g ≢ guid) (given_by_others other (and_then run event)) }
{}

/// What a store says of a run that has come to it.
pub fn stores_tell()
    ensures due { (run : Run) (seen : Seen) (uid : ℕ) → HasComeTo run seen → seen.stopped ≡ false → due_of run uid ≡ seen.due uid }
    ensures new_guid { (run : Run) (seen : Seen) (guid : List ℕ) → HasComeTo run seen → seen.gave guid ≡ false → was_given run guid ≡ false }
    ensures pinned { (run : Run) (seen : Seen) (file : ℕ) → HasComeTo run seen → seen.stopped ≡ false → is_pinned run file ≡ nat_lt 0 (seen.pins file) }
    ensures unused { (run : Run) (seen : Seen) (file : ℕ) → HasComeTo run seen → seen.used file ≡ false → was_used run file ≡ false }
    // A new file is doomed: it was pinned then as it is now.
    ensures dooms { (run : Run) (event : RunEvent) (file : ℕ) → was_used run file ≡ false → is_one_of event.doomed file ≡ true → event.removed ≡ [] → (was_pinned (and_then run event) file ≡ is_pinned (and_then run event) file) × (is_doomed (and_then run event) file ≡ true) }
    ensures instances { (run : Run) (seen : Seen) (instance : InstRow) → HasComeTo run seen → seen.stopped ≡ false → is_known_instance run instance ≡ seen.instances instance }
    // An event places an instance that none can have removed: it is there, and so it stays with every event that removes none.
    ensures placed { (run : Run) (event : RunEvent) (seen : Seen) (instance : InstRow) → HasComeTo run seen → seen.gone instance ≡ false → event.gone ≡ [] → list_any (is_same_instance instance) event.placed ≡ true → is_known_instance (and_then run event) instance ≡ true }
    ensures known { (run : Run) (event : RunEvent) (instance : InstRow) → event.gone ≡ [] → is_known_instance run instance ≡ true → is_known_instance (and_then run event) instance ≡ true }
    // A file that isn't sealed and is known behind the event is one that the store knew, or that the event made.
    ensures files { (run : Run) (event : RunEvent) (seen : Seen) (file : ℕ) → HasComeTo run seen → seen.stopped ≡ false → event.removed ≡ [] → is_sealed (map_of (and_then run event)) file ≡ false → is_known_file (and_then run event) file ≡ true → (seen.files file ≡ true) ⊎ (is_one_of event.made file ≡ true) }
    // The run comes on with an event that leaves files and GUIDs.
    ensures on { (run : Run) (event : RunEvent) (old new : Seen) → HasComeTo run old → HasCome (and_then run event) new.map new.drawn (told_calls new.history) → ((uid : ℕ) → new.due uid + ended_in uid event ≡ old.due uid + begun_in uid event)
        → LeavesFiles event → TellsSame old new → HasComeTo (and_then run event) new }
{}

/// The replies are those that the events gave, also with one event more.
pub fn replies_go_on()
    ensures ended { (script : Requests) (run : Run) (journal : List JournalStep) (replies given_also : List (Option Reply)) (lane place : ℕ) (request : Request) (event : RunEvent) (given : Reply) → IsTurn script journal replies lane place request → AreReplies script run replies → event.request ≡ place
        → event.reply ≡ Some given → length given_also ≡ length replies → RepliesAlso replies given_also place given → AreReplies script (and_then run event) given_also }
    ensures more { (script : Requests) (run : Run) (journal : List JournalStep) (replies : List (Option Reply)) (lane place : ℕ) (request : Request) (event : RunEvent) → IsTurn script journal replies lane place request → AreReplies script run replies → event.request ≡ place
        → event.reply ≡ None → AreReplies script (and_then run event) replies }
{}

/// Both events of an expunge do as the clause of a step says, each from its stage, and the first leads to the second.
pub fn expunges_step_twice()
    ensures removing { (around after : Around) (run : Run) (lane place : ℕ) (said : List Reply) (name : List ℕ) (uid : Uid) (lists : Lists) (old : Seen) (meanings : List BoxMeaning) (history : Option History) (faults : Faults) (mailbox : Mailbox) (row : MapRecord)
        → HasComeTo run old → StandsAtStage ToRemove run place said → old.stopped ≡ false → first_refusal run lists (part_checks run (removal lane place mailbox uid row.uid (told_calls history)) (request.Expunge name uid) First) ≡ None
        → mailbox_named name lists ≡ Some mailbox → IsRecord run lists name uid.0 row → ShowsSeen (behind_box old meanings row.uid history faults) (expunge name uid.0 lists) → Leads lists (expunge name uid.0 lists) old (behind_box old meanings row.uid history faults) → Grows old.history history → MailIsKept old.map old.history history → NoFault old.faults faults
        → (d : DidEvent around after run lane place said (request.Expunge name uid) lists old (behind_box old meanings row.uid history faults) (did.Step half.Whole) None) × StandsAtStage (ToLower row.uid) (and_then run d.makes.event) place (and_told said d.makes.answer) }
    ensures lowering { (around after : Around) (run : Run) (lane place : ℕ) (said : List Reply) (name : List ℕ) (uid : Uid) (lists : Lists) (old : Seen) (owed : ℕ) (due : ℕ → ℕ) (history : Option History) (faults : Faults)
        → HasComeTo run old → StandsAtStage (ToLower owed) run place said → old.stopped ≡ false → MapFits old.map (entry.D (record { 0 = owed } ∷ [])) → ((uid : ℕ)
        → due uid + one_due owed uid ≡ old.due uid) → ShowsSeen (behind_lowering old owed due history faults) lists → Leads lists lists old (behind_lowering old owed due history faults) → Grows old.history history → MailIsKept old.map old.history history → NoFault old.faults faults
        → DidEvent around after run lane place said (request.Expunge name uid) lists old (behind_lowering old owed due history faults) did.Quiet (Some reply.Done) }
    ensures kept { (stage : Stage) → IsKept (StandsAtStage stage) }
{}
