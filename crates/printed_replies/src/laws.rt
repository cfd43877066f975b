// Laws of what is printed of a script.
ghost use Rattle.std.specs.Prelude.{◌≡◌, ◌≤◌, ◌++◌, ℕ, All, AllPairs, List, Option, Some, length, map, take};
ghost use Rattle.disk_model.specs.Disk.{Faults, History};
ghost use Rattle.journal.specs.Journal.{IsLegal, JournalStep, Requests};
ghost use Rattle.lanes.specs.Worlds.{AreOfLanes};
ghost use Rattle.list_machine.specs.Run.{Run};
ghost use Rattle.mdbox_base.specs.declared.replies.Reply.{Reply};
ghost use Rattle.mdbox_base.specs.declared.requests.Request.{Request};
ghost use Rattle.mdbox_base.specs.declared.script.JournalEntry.{JournalEntry};
ghost use Rattle.model_lists.specs.Lists.{Lists};
ghost use Rattle.request_text.specs.BatchText.{batch_text};
ghost use Rattle.request_text.specs.ReplyText.{reply_text};
ghost use Rattle.script_run.specs.Script.{ServesScript};
ghost use Rattle.printed_replies.specs.PrintedPlaces.{NumberJournal};
ghost use Rattle.printed_replies.specs.PrintedReplies.{AreRepliesTo, IsReplyTo, ReplyHasWords};

/// A reply to a request is read from its text in one way, whatever follows; so none begins another one to the same request.
pub fn no_reply_begins_another()
    ensures { (asked : Request) (a b : Reply) (x y : List ℕ) → IsReplyTo asked a → IsReplyTo asked b → ReplyHasWords a → ReplyHasWords b
        → reply_text a ++ x ≡ reply_text b ++ y → (a ≡ b) × (x ≡ y) }
{}

/// So are the replies to the requests of a script, from what `batch` prints of them.
pub fn printed_replies_are_read_in_one_way()
    ensures { (script : Requests) (i j : List JournalEntry) (a b : List Reply) (x y : List ℕ) → AreRepliesTo script a → AreRepliesTo script b → All ReplyHasWords a → All ReplyHasWords b
        → batch_text i (map Some a) ++ x ≡ batch_text j (map Some b) ++ y → (a ≡ b) × (x ≡ y) }
{}

/// What was printed of a script, whole or not, tells the replies that are whole in it: if it begins with the first n replies of one run, and
/// is a prefix of what another run prints, that run's first n replies are the same.
pub fn a_printed_prefix_tells_its_replies()
    ensures { (script : Requests) (i j : List JournalEntry) (a b : List Reply) (n : ℕ) (printed cut rest : List ℕ) → AreRepliesTo script a → AreRepliesTo script b → All ReplyHasWords a → All ReplyHasWords b
        → printed ≡ batch_text i (map Some (take n a)) ++ cut → printed ++ rest ≡ batch_text j (map Some b) → take n a ≡ take n b }
{}

/// The places that are printed of a script's replies number its journal, from 1 and without gaps.
pub fn printed_places_number_the_journal()
    ensures { (script : Requests) (lists : Lists) (given : List Reply) (entries : List JournalEntry) (began now : Faults) (old opened new : Option History) → length given ≡ length script → ServesScript script lists given entries began now old opened new → NumberJournal entries given }
{}

/// A script of one lane is done in its own order: the steps of an earlier request stand before those of a later one.
pub fn one_lane_keeps_script_order()
    ensures { (script : Requests) (start : Lists) (run : Run) (journal : List JournalStep) (replies : List (Option Reply)) (old new : Faults) → AreOfLanes 1 script → IsLegal start script run journal replies old new → AllPairs (λ a b. a.request ≤ b.request) journal }
{}

/// The replies of a script that was served are those of their requests' kinds.
pub fn served_replies_are_to_their_requests()
    ensures { (script : Requests) (lists : Lists) (given : List Reply) (entries : List JournalEntry) (began now : Faults) (old opened new : Option History) → length given ≡ length script → ServesScript script lists given entries began now old opened new → AreRepliesTo script given }
{}
