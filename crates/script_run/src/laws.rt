// What the logs show of files that are safe, and what a script of one request makes of them.
ghost use Rattle.disk_model.specs.Disk.{EachImage, Faults, History, IsIdle};
ghost use Rattle.std.specs.Prelude.{◌≡◌, ◌≤◌, ◌⊎◌, ◌∷◌, [], ℕ, true, List, length, Option, Some};
ghost use Rattle.mdbox_base.specs.declared.entries.Highest.{Highest};
ghost use Rattle.mdbox_base.specs.declared.replies.Refusal.{Refusal};
ghost use Rattle.mdbox_base.specs.declared.replies.Refusal.TheVariants as refusal;
ghost use Rattle.mdbox_base.specs.declared.replies.Reply.{Reply};
ghost use Rattle.mdbox_base.specs.declared.replies.Reply.TheVariants as reply;
ghost use Rattle.mdbox_base.specs.declared.ids.Uid.{Uid};
ghost use Rattle.mdbox_base.specs.declared.requests.Request.{Request};
ghost use Rattle.mdbox_base.specs.declared.requests.Request.TheVariants as request;
ghost use Rattle.mdbox_base.specs.declared.script.JournalEntry.{JournalEntry};
ghost use Rattle.model_lists.specs.Lists.{Lists};
ghost use Rattle.model_meaning.specs.BoxMeaning.{BoxMeaning};
ghost use Rattle.model_meaning.specs.MapMeaning.{MapMeaning};
ghost use Rattle.model_store.specs.Safe.{Safe};
ghost use Rattle.model_store.specs.Settled.{IsSettledFor};
ghost use Rattle.list_machine.specs.Machine.{is_step};
ghost use Rattle.list_machine.specs.Run.{Run};
ghost use Rattle.journal.specs.Journal.{Broken, IsLegal, JournalStep, Reached, left_by};
ghost use Rattle.journal.specs.Makes.{IsServed};
ghost use Rattle.store_open.specs.Opened.{IsOpenedAs};
ghost use Rattle.script_run.specs.Done.{IsScriptDone, MayRead};
ghost use Rattle.script_run.specs.One.{AreAlongMake, AreAlongMove, AreListsTold, HasOneEvent, IsAlongOne, IsAnsweredFirst, IsUnanswered, IsUnfailed, MakesOneStep, MakesSteps, OpensUnchanged, ServesRequest, alone, next_mailbox};
ghost use Rattle.script_run.specs.Opening.{AreSafeFor, LogsShowLists};
ghost use Rattle.script_run.specs.Script.{only_reads};

use store_core::listings_are_shown;

/// Files that are safe for lists open with logs that show them.
pub fn safe_files_are_shown()
    ensures { (old : Option History) (m : MapMeaning) (meanings : List BoxMeaning) (lists : Lists) → IsOpenedAs old m meanings → AreSafeFor lists old → LogsShowLists m meanings lists }
{
    listings_are_shown();
}

/// Whatever logs a store opens with show some lists.
pub fn opened_logs_show_lists()
    ensures { (old : Option History) (m : MapMeaning) (meanings : List BoxMeaning) → IsOpenedAs old m meanings → (lists : Lists) × LogsShowLists m meanings lists }
{}

/// A script of one request was served, as one request is, from any lists for which the files were safe. Its journal has two steps at the
/// most; and unless a call of the disk failed, it leaves the lists that the reply tells, from lists that the logs show: by these the
/// second half of a move, which finds its mailbox by number, finds the one with the name.
pub fn one_request()
    ensures serves { (asked : Request) (given : Reply) (entries : List JournalEntry) (old new : Option History) (began now : Faults) → IsScriptDone (alone asked) (given ∷ []) entries old new began now → (lists : Lists) → AreSafeFor lists old → MayRead (alone asked) lists old → ServesRequest asked lists given began now old new }
    ensures few { (start : Lists) (asked : Request) (run : Run) (journal : List JournalStep) (given : Reply) (old new : Faults) → IsLegal start (alone asked) run journal (Some given ∷ []) old new → length journal ≤ 2 }
    ensures left { (start : Lists) (asked : Request) (run : Run) (journal : List JournalStep) (broken : Broken) (given : Reply) (old new : Faults) (first m : MapMeaning) (drawn : Highest) (calls : ℕ) (meanings : List BoxMeaning)
        → LogsShowLists first meanings start → IsServed start (alone asked) run journal broken (Some given ∷ []) old new first m drawn calls → IsUnfailed given → AreListsTold asked given start (left_by start journal) }
    ensures settled { (asked : Request) (given : Reply) (lists : Lists) (began now : Faults) (old new : Option History) → ServesRequest asked lists given began now old new → IsUnfailed given → IsSettledFor lists old → (later : Lists) × AreListsTold asked given lists later × IsSettledFor later new }
{}

/// A request of one event is answered as the machine does at that event, on any lists that the logs show, of a run that has their map;
/// unless there was no memory, or a failed change stopped the store. No such request reads octets of messages, so none is a read fault.
/// Where a check refused it nothing has changed. A crash leaves the lists before it, or those that its step leaves: so it is of each
/// request that makes its step at the same event always, a deletion, a renaming, an expunge and a copy too, from lists that the logs show.
pub fn requests_of_one_event()
    ensures answered { (asked : Request) (given : Reply) (entries : List JournalEntry) (old new : Option History) (began now : Faults) → (done : IsScriptDone (alone asked) (given ∷ []) entries old new began now) → HasOneEvent asked → (lists : Lists) → LogsShowLists done.m done.meanings lists → IsUnanswered given ⊎ IsAnsweredFirst asked done.m lists given }
    ensures unread { (asked : Request) (given : Reply) (entries : List JournalEntry) (old new : Option History) (began now : Faults) → IsScriptDone (alone asked) (given ∷ []) entries old new began now → MakesSteps asked → given ≡ reply.Refused refusal.ReadFault → ⊥ }
    ensures reached { (asked : Request) (start : Lists) (run : Run) (journal : List JournalStep) (broken : Broken) (replies : List (Option Reply)) (old new : Faults) (first m : MapMeaning) (drawn : Highest) (calls : ℕ) (meanings : List BoxMeaning) → LogsShowLists first meanings start → MakesOneStep asked → IsServed start (alone asked) run journal broken replies old new first m drawn calls
        → (moment : ℕ) (lists : Lists) → Reached start run journal broken moment lists → IsAlongOne asked start lists }
    ensures refused { (asked : Request) (given : Reply) (entries : List JournalEntry) (old new : Option History) (began now : Faults) → (done : IsScriptDone (alone asked) (given ∷ []) entries old new began now) → HasOneEvent asked → (why : Refusal) → is_step why ≡ true → given ≡ reply.Refused why → IsIdle done.leaves.opened new }
{}

/// A make alone makes one step: it leaves the lists before it, or those with the mailbox, whose number is the next one of the map with
/// which its run begins; and so does a crash within it.
pub fn makes_make_one_step()
    ensures left { (name : List ℕ) (start : Lists) (run : Run) (journal : List JournalStep) (broken : Broken) (replies : List (Option Reply)) (old new : Faults) (first m : MapMeaning) (drawn : Highest) (calls : ℕ) → IsServed start (alone (request.Make name)) run journal broken replies old new first m drawn calls → AreAlongMake (next_mailbox first) name start (left_by start journal) }
    ensures reached { (name : List ℕ) (start : Lists) (run : Run) (journal : List JournalStep) (broken : Broken) (replies : List (Option Reply)) (old new : Faults) (first m : MapMeaning) (drawn : Highest) (calls : ℕ) → IsServed start (alone (request.Make name)) run journal broken replies old new first m drawn calls
        → (moment : ℕ) (lists : Lists) → Reached start run journal broken moment lists → AreAlongMake (next_mailbox first) name start lists }
{}

/// A delivery alone adds its message once at the most: a crash within it leaves the lists before it, or those with the message.
pub fn deliveries_make_one_step()
    ensures { (name : List ℕ) (time : ℕ) (octets : List ℕ) (start : Lists) (run : Run) (journal : List JournalStep) (broken : Broken) (replies : List (Option Reply)) (old new : Faults) (first m : MapMeaning) (drawn : Highest) (calls : ℕ) → IsServed start (alone (request.Deliver name time octets)) run journal broken replies old new first m drawn calls
        → (moment : ℕ) (lists : Lists) → Reached start run journal broken moment lists → IsAlongOne (request.Deliver name time octets) start lists }
{}

/// A crash within a move alone leaves the lists before it, which the logs show, those with the copy, or those that are moved; and its
/// second step finds the message that the first has copied.
pub fn moves_make_two_steps()
    ensures reached { (name : List ℕ) (uid : Uid) (target : List ℕ) (start : Lists) (run : Run) (journal : List JournalStep) (broken : Broken) (replies : List (Option Reply)) (old new : Faults) (first m : MapMeaning) (drawn : Highest) (calls : ℕ) (meanings : List BoxMeaning)
        → LogsShowLists first meanings start → IsServed start (alone (request.Move name uid target)) run journal broken replies old new first m drawn calls
        → (moment : ℕ) (lists : Lists) → Reached start run journal broken moment lists → AreAlongMove name uid target start lists }
    ensures here { (name : List ℕ) (uid : Uid) (target : List ℕ) (start : Lists) (run : Run) (journal : List JournalStep) (broken : Broken) (moved : Uid) (old new : Faults) (first m : MapMeaning) (drawn : Highest) (calls : ℕ) (meanings : List BoxMeaning)
        → LogsShowLists first meanings start → IsServed start (alone (request.Move name uid target)) run journal broken (Some (reply.Moved moved true) ∷ []) old new first m drawn calls → ⊥ }
{}

/// Where nothing has changed since the opening, the files open again with logs that mean the same. A request that only reads leaves a
/// disk that was settled for lists settled for them, and at each moment safe for them.
pub fn requests_that_read()
    ensures unchanged { (asked : Request) (given : Reply) (entries : List JournalEntry) (old new : Option History) (began now : Faults) → (done : IsScriptDone (alone asked) (given ∷ []) entries old new began now) → IsIdle done.leaves.opened new → OpensUnchanged done.m done.meanings old new }
    ensures safe { (asked : Request) (given : Reply) (entries : List JournalEntry) (old new : Option History) (began now : Faults) → IsScriptDone (alone asked) (given ∷ []) entries old new began now → only_reads asked ≡ true → (lists : Lists) → IsSettledFor lists old → EachImage (λ _ image. Safe image lists) old new × IsSettledFor lists new }
{}
