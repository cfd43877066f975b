// Requests by the list machine.
ghost use Rattle.std.specs.Prelude.{◌≡◌, ℕ, List, [], find, Option, Some, None};
ghost use Rattle.std.specs.Option.{option_map};
ghost use Rattle.std.specs.Str.{bytes_eq};
ghost use Rattle.disk_model.specs.Disk.{History};
ghost use Rattle.list_machine.specs.Machine.{PartAnswers, set_flags, set_words};
ghost use Rattle.list_machine.specs.Run.{First, RunEvent, Run};
ghost use Rattle.mdbox_base.specs.declared.entries.BoxEntry.TheVariants.{F, K};
ghost use Rattle.mdbox_base.specs.declared.ids.Uid.{Uid};
ghost use Rattle.mdbox_base.specs.declared.replies.Refusal.TheVariants.{NoMailbox, NoMessage};
ghost use Rattle.mdbox_base.specs.declared.replies.Reply.TheVariants.{Refused, Done};
ghost use Rattle.mdbox_base.specs.declared.requests.Request.TheVariants.{List as ListBox, Flag, Keywords};
ghost use Rattle.model_appends.specs.Appending.{lists_by, meanings_by};
ghost use Rattle.model_lists.specs.Lists.{Lists, AreWellFormed};
ghost use Rattle.model_meaning.specs.BoxMeaning.{LogRow, BoxMeaning, row_at};
ghost use Rattle.model_meaning.specs.MapMeaning.{MapBox};
ghost use Rattle.model_store.specs.Listing.{ShowLists, meaning_named, listing_of};
ghost use Rattle.store_core.specs.Value.{StoreValue};
ghost use Rattle.task_claims.specs.Claims.{no_claims};
ghost use Rattle.task_claims.specs.Stable.{IsStable};
ghost use Rattle.task_steps.specs.Step.{IsKept};
ghost use Rattle.mail_ops.specs.Claims.{copy_claims, expunge_claims, make_claims, move_claims};
ghost use Rattle.mail_ops.specs.Copy.{IsAtCopy, IsReadyToCopy};
ghost use Rattle.mail_ops.specs.Deleting.{IsAtDelete, IsReadyToDelete};
ghost use Rattle.mail_ops.specs.Expunging.{IsAtExpunge, expunge_amounts};
ghost use Rattle.mail_ops.specs.Making.{IsAtMake, IsReadyToMake};
ghost use Rattle.mail_ops.specs.Moving.{IsAtMove, IsReadyToMove};
ghost use Rattle.mail_ops.specs.Owing.{AreDueIn};
ghost use Rattle.mail_ops.specs.Task.{IsAt};
ghost use Rattle.mail_ops.specs.declared.copy.CopyStage.{CopyStage};
ghost use Rattle.mail_ops.specs.declared.deleting.DeleteStage.{DeleteStage};
ghost use Rattle.mail_ops.specs.declared.expunging.ExpungeStage.{ExpungeStage};
ghost use Rattle.mail_ops.specs.declared.making.MakeStage.{MakeStage};
ghost use Rattle.mail_ops.specs.declared.moving.MoveStage.{MoveStage};
ghost use Rattle.mail_ops.specs.declared.task.TaskStage.{TaskStage};

use disk_model::Disk;

/// The stages of a task are kept by every event of another request.
pub fn task_stages_are_kept()
    ensures { (stage : TaskStage) → IsKept (IsAt stage) }
{}

/// So are those of an expunge.
pub fn expunge_stages_are_kept()
    ensures { (stage : ExpungeStage) → IsKept (IsAtExpunge stage) }
{}

/// Those of a copy.
pub fn copy_stages_are_kept()
    ensures { (stage : CopyStage) → IsKept (IsAtCopy stage) }
{}

/// Those of a move.
pub fn move_stages_are_kept()
    ensures { (uid : Uid) (stage : MoveStage) → IsKept (IsAtMove uid stage) }
{}

/// Those of a make.
pub fn make_stages_are_kept()
    ensures { (stage : MakeStage) → IsKept (IsAtMake stage) }
{}

/// And those of a deletion.
pub fn delete_stages_are_kept()
    ensures { (stage : DeleteStage) → IsKept (IsAtDelete stage) }
{}

/// Each of these tasks stays ready for its next event beside each event of any other task that moves only its own claims and leaves to
/// others what is theirs.
pub fn ready_tasks_are_stable<D: Disk>()
    ensures copies { (name : List ℕ) (uid : Uid) (now : CopyStage) → IsStable (copy_claims now) (λ (store : StoreValue D) (history : Option History). IsReadyToCopy name uid now store) }
    ensures moves { (name : List ℕ) (uid : Uid) (now : MoveStage) → IsStable (move_claims now) (λ (store : StoreValue D) (history : Option History). IsReadyToMove name uid now store) }
    ensures expunges { (now : ExpungeStage) → IsStable (expunge_claims now) (λ (store : StoreValue D) (history : Option History). AreDueIn store (expunge_amounts now)) }
    ensures makes { (now : MakeStage) → IsStable (make_claims now) (λ (store : StoreValue D) (history : Option History). IsReadyToMake now store) }
    ensures deletes { (now : DeleteStage) → IsStable no_claims (λ (store : StoreValue D) (history : Option History). IsReadyToDelete now store) }
{}

/// Where lists are shown, what the logs of the mailboxes mean is what the list machine answers a listing.
pub fn listings_are_answered()
    ensures { (run : Run) (event : RunEvent) (boxes : List MapBox) (meanings : List BoxMeaning) (lists : Lists) (name : List ℕ) → ShowLists boxes meanings lists → PartAnswers run event lists (ListBox name) First (listing_of (meaning_named name boxes meanings)) lists }
{}

/// A flag by the list machine: where lists are shown and no mailbox has the name, or no message the UID, it is refused; else
/// the entry gives the lists that the machine gives, and they are shown by what the logs mean then.
pub fn flags_are_shown()
    ensures no_mailbox { (run : Run) (event : RunEvent) (boxes : List MapBox) (meanings : List BoxMeaning) (lists : Lists) (name : List ℕ) (uid : Uid) (flags : ℕ) → ShowLists boxes meanings lists → meaning_named name boxes meanings ≡ None
        → PartAnswers run event lists (Flag name uid flags) First (Refused NoMailbox) lists }
    ensures no_message { (run : Run) (event : RunEvent) (boxes : List MapBox) (meanings : List BoxMeaning) (lists : Lists) (name : List ℕ) (uid : Uid) (flags : ℕ) (m : BoxMeaning) → ShowLists boxes meanings lists → meaning_named name boxes meanings ≡ Some m
        → row_at m uid.0 ≡ None → PartAnswers run event lists (Flag name uid flags) First (Refused NoMessage) lists }
    ensures flagged { (run : Run) (event : RunEvent) (boxes : List MapBox) (meanings : List BoxMeaning) (lists : Lists) (name : List ℕ) (number : ℕ) (uid : Uid) (flags : ℕ) (m : BoxMeaning) (row : LogRow) → AreWellFormed lists → ShowLists boxes meanings lists
        → meaning_named name boxes meanings ≡ Some m → row_at m uid.0 ≡ Some row → option_map (λ b. b.number) (find (λ b. bytes_eq b.name name) boxes) ≡ Some number
        → (lists_by number [] (F uid flags) lists ≡ set_flags name uid.0 flags lists) × PartAnswers run event lists (Flag name uid flags) First Done (set_flags name uid.0 flags lists) }
    ensures shown { (number : ℕ) (octets : List ℕ) (uid : Uid) (flags : ℕ) (boxes : List MapBox) (meanings : List BoxMeaning) (lists : Lists) → ShowLists boxes meanings lists
        → ShowLists boxes (meanings_by number (F uid flags) boxes meanings) (lists_by number octets (F uid flags) lists) }
{}

/// So are keywords.
pub fn words_are_shown()
    ensures no_mailbox { (run : Run) (event : RunEvent) (boxes : List MapBox) (meanings : List BoxMeaning) (lists : Lists) (name : List ℕ) (uid : Uid) (words : List (List ℕ)) → ShowLists boxes meanings lists → meaning_named name boxes meanings ≡ None
        → PartAnswers run event lists (Keywords name uid words) First (Refused NoMailbox) lists }
    ensures no_message { (run : Run) (event : RunEvent) (boxes : List MapBox) (meanings : List BoxMeaning) (lists : Lists) (name : List ℕ) (uid : Uid) (words : List (List ℕ)) (m : BoxMeaning) → ShowLists boxes meanings lists → meaning_named name boxes meanings ≡ Some m
        → row_at m uid.0 ≡ None → PartAnswers run event lists (Keywords name uid words) First (Refused NoMessage) lists }
    ensures worded { (run : Run) (event : RunEvent) (boxes : List MapBox) (meanings : List BoxMeaning) (lists : Lists) (name : List ℕ) (number : ℕ) (uid : Uid) (words : List (List ℕ)) (m : BoxMeaning) (row : LogRow) → AreWellFormed lists → ShowLists boxes meanings lists
        → meaning_named name boxes meanings ≡ Some m → row_at m uid.0 ≡ Some row → option_map (λ b. b.number) (find (λ b. bytes_eq b.name name) boxes) ≡ Some number
        → (lists_by number [] (K uid words) lists ≡ set_words name uid.0 words lists) × PartAnswers run event lists (Keywords name uid words) First Done (set_words name uid.0 words lists) }
    ensures shown { (number : ℕ) (octets : List ℕ) (uid : Uid) (words : List (List ℕ)) (boxes : List MapBox) (meanings : List BoxMeaning) (lists : Lists) → ShowLists boxes meanings lists
        → ShowLists boxes (meanings_by number (K uid words) boxes meanings) (lists_by number octets (K uid words) lists) }
{}
