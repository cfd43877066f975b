// Laws of what is printed.
ghost use Rattle.std.specs.Prelude.{◌≡◌, ◌≤◌, ◌++◌, ℕ, All, List, Option, Some, length, map, sum_by, take, ◌⊎◌, false};
ghost use Rattle.disk_model.specs.Disk.{Faults, History};
ghost use Rattle.exercise_course.specs.Hindered.{BeginsFree, is_full};
ghost use Rattle.mdbox_base.specs.declared.replies.Reply.{Reply};
ghost use Rattle.mdbox_base.specs.declared.replies.Reply.TheVariants as reply;
ghost use Rattle.mdbox_base.specs.declared.script.Script.{Script};
ghost use Rattle.model_lists.specs.Lists.{Lists};
ghost use Rattle.model_meaning.specs.BoxMeaning.{BoxMeaning};
ghost use Rattle.model_meaning.specs.MapMeaning.{MapMeaning};
ghost use Rattle.script_run.specs.Opening.{LogsShowLists};
ghost use Rattle.request_text.specs.BatchText.{batch_text};
ghost use Rattle.request_text.specs.declared.outcome.Outcome.{Outcome};
ghost use Rattle.request_text.specs.declared.outcome.Outcome.TheVariants as outcome;
ghost use Rattle.script_text.specs.MadeScript.{made_script};
ghost use Rattle.mdbox_top.specs.BatchRun.{IsBatchDone};
ghost use Rattle.mdbox_top.specs.CountsRun.{counts_of};
ghost use Rattle.mdbox_top.specs.ExerciseRun.{IsCountedUp, IsDoneInOrder, made_requests};
ghost use Rattle.mdbox_top.specs.Numbers.{messages_listed, octets_listed, summary_of};
ghost use Rattle.printed_replies.specs.PrintedReplies.{AreRepliesTo, ReplyHasWords};

use disk_model::Disk;

/// So `batch` with status 5 or 8: of two runs of a script that print the same, whole or cut off, the replies that are whole in it are the same.
pub fn batch_tells_the_replies_that_are_whole<D: Disk>()
    ensures { (script : Script) (held printed cut : List ℕ) (old new older newer : Option History) (began now before after : Faults) (one other : Outcome) (n : ℕ)
        (a : IsBatchDone D script (Some held) (Some (held ++ printed)) old new began now one) (b : IsBatchDone D script (Some held) (Some (held ++ printed)) older newer before after other)
        → AreRepliesTo script.requests a.given → AreRepliesTo script.requests b.given → All ReplyHasWords a.given → All ReplyHasWords b.given
        → printed ≡ batch_text a.journal (map Some (take n a.given)) ++ cut → take n a.given ≡ take n b.given }
{}

/// Four of the numbers of an exercise are those that the request `counts` replies of the same logs.
pub fn an_exercise_has_the_numbers_of_counts()
    ensures { (replies : List (Option Reply)) (m : MapMeaning) (meanings : List BoxMeaning) → counts_of m meanings ≡ reply.Counted (summary_of replies m meanings).records (summary_of replies m meanings).references (summary_of replies m meanings).counts (summary_of replies m meanings).instances }
{}

/// The messages and octets that an exercise counts are those of the lists that the logs show.
pub fn counted_messages_are_listed()
    ensures { (m : MapMeaning) (meanings : List BoxMeaning) (lists : Lists) → LogsShowLists m meanings lists
        → (messages_listed meanings ≡ sum_by (λ mailbox. length mailbox.messages) lists) × (octets_listed meanings ≡ sum_by (λ mailbox. sum_by (λ message. length message.octets) mailbox.messages) lists) }
{}

/// An exercise counts as many requests as it was to make; and if it ends with status 0, each of them was replied OK.
pub fn exercises_count_their_requests<D: Disk>()
    ensures requests { (lanes count number : ℕ) (held later : Option (List ℕ)) (old new : Option History) (began now : Faults) (ended : Outcome) (done : IsCountedUp D (made_script lanes count number) held later old new began now ended)
        → (summary_of (map Some done.given) done.m done.meanings).requests ≡ count }
    ensures done { (lanes count number : ℕ) (held later : Option (List ℕ)) (old new : Option History) (began now : Faults) (done : IsCountedUp D (made_script lanes count number) held later old new began now outcome.Done)
        → ((summary_of (map Some done.given) done.m done.meanings).ok ≡ count) × ((summary_of (map Some done.given) done.m done.meanings).no ≡ 0) }
{}

/// An exercise of a store that has none of its mailboxes, and room for them. If it ends with status 0 or 1, and no number had run out
/// (NO 16), each request is replied OK, so the status is 0, and the messages and octets are those of the lists before with the script done
/// in its own order; each delivery adds a record, counts grow as messages do, and no instance is named that wasn't before.
pub fn exercises_are_done_in_order<D: Disk>()
    ensures { (lanes count number : ℕ) (held later : Option (List ℕ)) (old new : Option History) (began now : Faults) (ended : Outcome) (done : IsCountedUp D (made_script lanes count number) held later old new began now ended) → 1 ≤ lanes → lanes ≤ 64 → count ≤ 100000
        → (lists : Lists) → LogsShowLists done.done.m done.done.meanings lists → BeginsFree lanes lists → All (λ one. is_full one ≡ false) done.given → (ended ≡ outcome.Done) ⊎ (ended ≡ outcome.No) → IsDoneInOrder (made_requests lanes count number) done.done.m lists done.given ended done.m done.meanings }
{}
