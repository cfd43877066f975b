// The text of a script's replies, as it grows.
ghost use Rattle.std.specs.Prelude.{◌≡◌, ◌<◌, ◌+◌, ◌++◌, ◌∷◌, [], List, All, length, Option, Some};
ghost use Rattle.mdbox_base.specs.declared.replies.Reply.{Reply};
ghost use Rattle.mdbox_base.specs.declared.script.JournalEntry.{JournalEntry};
ghost use Rattle.request_text.specs.BatchText.{answer_text, batch_text, request_steps};

/// The reply to a request whose steps stand after those of all others is told after theirs.
pub fn replies_are_told_in_order()
    ensures { (journal more : List JournalEntry) (replies : List (Option Reply)) (given : Reply) → All (λ entry. entry.request < length replies) journal → All (λ entry. entry.request ≡ length replies) more
        → batch_text (journal ++ more) (replies ++ Some given ∷ []) ≡ batch_text journal replies ++ answer_text (length replies + 1) (request_steps (journal ++ more) (length replies)) (Some given) }
{}
