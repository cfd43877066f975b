// Laws of exercises.
ghost use Rattle.std.specs.Prelude.{[], ◌≡◌, ◌<◌, ◌≤◌, ◌+◌, ℕ, All, AllPairs, List, Some, false, length, map, sum_by, true};
ghost use Rattle.disk_model.specs.Disk.{Faults};
ghost use Rattle.journal.specs.Journal.{Broken, IsLegal, JournalStep, left_by};
ghost use Rattle.journal.specs.Makes.{IsServed};
ghost use Rattle.list_machine.specs.Run.{Run};
ghost use Rattle.mdbox_base.specs.declared.entries.Highest.{Highest};
ghost use Rattle.mdbox_base.specs.declared.replies.Reply.{Reply};
ghost use Rattle.model_lists.specs.Lists.{Lists};
ghost use Rattle.model_meaning.specs.MapMeaning.{MapMeaning, named_instances};
ghost use Rattle.script_text.specs.MadeScript.{made_script};
ghost use Rattle.exercise_course.specs.Hindered.{BeginsFree, is_hindered, is_ok, is_stopped};
ghost use Rattle.exercise_course.specs.InOrder.{deliveries_in, lists_in_order, message_total, octet_total};

/// A made script is done from lists that have none of its mailboxes, and room for them, and no reply is NO 13 or NO 16 to 19: then each
/// request is replied OK, so none misses its mailbox or its message (NO 10 to 12), and the lists have as many messages and octets in the
/// end as if the requests were done in the script's own order.
pub fn exercises_are_done()
    ensures ok { (lanes count number : ℕ) (start : Lists) (run : Run) (journal : List JournalStep) (given : List Reply) (old new : Faults) → 1 ≤ lanes → lanes ≤ 64 → count ≤ 100000 → BeginsFree lanes start → length given ≡ count → All (λ one. is_hindered one ≡ false) given
        → IsLegal start (made_script lanes count number).requests run journal (map Some given) old new → All (λ one. is_ok one ≡ true) given }
    ensures messages { (lanes count number : ℕ) (start : Lists) (run : Run) (journal : List JournalStep) (given : List Reply) (old new : Faults) → 1 ≤ lanes → lanes ≤ 64 → count ≤ 100000 → BeginsFree lanes start → length given ≡ count → All (λ one. is_hindered one ≡ false) given
        → IsLegal start (made_script lanes count number).requests run journal (map Some given) old new → message_total (left_by start journal) ≡ message_total (lists_in_order (made_script lanes count number).requests start) }
    ensures octets { (lanes count number : ℕ) (start : Lists) (run : Run) (journal : List JournalStep) (given : List Reply) (old new : Faults) → 1 ≤ lanes → lanes ≤ 64 → count ≤ 100000 → BeginsFree lanes start → length given ≡ count → All (λ one. is_hindered one ≡ false) given
        → IsLegal start (made_script lanes count number).requests run journal (map Some given) old new → octet_total (left_by start journal) ≡ octet_total (lists_in_order (made_script lanes count number).requests start) }
{}

/// A made script is served from lists that have none of its mailboxes, and room for them, by a run whose map has rising map uids, up to the
/// highest, as it begins. No message of it has as many copies as are counted (NO 13): so if no reply is NO 16 to 19, each is OK.
pub fn exercises_copy_little()
    ensures { (lanes count number : ℕ) (start : Lists) (run : Run) (journal : List JournalStep) (broken : Broken) (given : List Reply) (old new : Faults) (first m : MapMeaning) (drawn : Highest) (calls : ℕ) → AllPairs (λ a b. a.uid < b.uid) first.records → All (λ row. row.uid ≤ first.highest.map) first.records
        → 1 ≤ lanes → lanes ≤ 64 → count ≤ 100000 → BeginsFree lanes start → length given ≡ count → All (λ one. is_stopped one ≡ false) given → IsServed start (made_script lanes count number).requests run journal broken (map Some given) old new first m drawn calls
        → All (λ one. is_ok one ≡ true) given }
{}

/// A made script is served from lists as `exercises_are_done` asks, by a run whose map has rising map uids, up to the highest, as it begins:
/// then the counts that are kept grow as the messages that are listed do.
pub fn exercises_keep_counts()
    ensures { (lanes count number : ℕ) (start : Lists) (run : Run) (journal : List JournalStep) (broken : Broken) (given : List Reply) (old new : Faults) (first m : MapMeaning) (drawn : Highest) (calls : ℕ) → AllPairs (λ a b. a.uid < b.uid) first.records → All (λ row. row.uid ≤ first.highest.map) first.records
        → 1 ≤ lanes → lanes ≤ 64 → count ≤ 100000 → BeginsFree lanes start → length given ≡ count → All (λ one. is_hindered one ≡ false) given → IsServed start (made_script lanes count number).requests run journal broken (map Some given) old new first m drawn calls
        → sum_by (λ row. row.count) m.records + message_total start ≡ sum_by (λ row. row.count) first.records + message_total (left_by start journal) }
{}

/// A made script was served, and each reply is OK: then each delivery added one record to the map, and no other request did; and the
/// records name the same instances as before, since no made message has a part that is detached.
pub fn exercises_add_records()
    ensures records { (lanes count number : ℕ) (start : Lists) (run : Run) (journal : List JournalStep) (broken : Broken) (given : List Reply) (old new : Faults) (first m : MapMeaning) (drawn : Highest) (calls : ℕ) → length given ≡ count → All (λ one. is_ok one ≡ true) given
        → IsServed start (made_script lanes count number).requests run journal broken (map Some given) old new first m drawn calls → length m.records ≡ length first.records + deliveries_in (made_script lanes count number).requests }
    ensures instances { (lanes count number : ℕ) (start : Lists) (run : Run) (journal : List JournalStep) (broken : Broken) (given : List Reply) (old new : Faults) (first m : MapMeaning) (drawn : Highest) (calls : ℕ) → length given ≡ count → All (λ one. is_ok one ≡ true) given
        → IsServed start (made_script lanes count number).requests run journal broken (map Some given) old new first m drawn calls → named_instances m ≡ named_instances first }
{}

/// What the definitions give of two small exercises, from lists without mailboxes: how many messages and octets, and how many deliveries.
/// Of six requests of one lane, two messages are left: the copy of an empty one, and one of four octets.
pub fn small_exercises()
    ensures six { (message_total (lists_in_order (made_script 1 6 999).requests []) ≡ 2) × (octet_total (lists_in_order (made_script 1 6 999).requests []) ≡ 4) × (deliveries_in (made_script 1 6 999).requests ≡ 2) }
    ensures one { (message_total (lists_in_order (made_script 64 1 0).requests []) ≡ 0) × (octet_total (lists_in_order (made_script 64 1 0).requests []) ≡ 0) × (deliveries_in (made_script 64 1 0).requests ≡ 0) }
{}
