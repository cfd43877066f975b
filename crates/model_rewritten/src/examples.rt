// The logs of the example, written anew.
ghost use Rattle.std.specs.Prelude.{◌≡◌, ◌∷◌, [], ◌++◌, codes};
ghost use Rattle.mdbox_base.specs.declared.entries.BoxEntry.TheVariants.{A, F, N};
ghost use Rattle.mdbox_base.specs.declared.entries.MapEntry.TheVariants.{B, G, H, V, X};
ghost use Rattle.model_logs.specs.LogExamples.{example_store};
ghost use Rattle.model_meaning.specs.BoxMeaning.{box_meaning};
ghost use Rattle.model_meaning.specs.MapMeaning.{map_meaning};
ghost use Rattle.model_meaning.specs.MeaningExamples.{example_guid, example_added, example_stored, example_map};
ghost use Rattle.model_rewritten.specs.Rewriting.{box_snapshot, map_snapshot};

/// A log of one message is written anew as it was, and with a higher next UID this stands at its end; flags that were set stand in
/// the message's own entry. Of the map log a mailbox that was deleted is left out, but its number stays the highest; another has
/// its present name and generation.
pub fn example_logs_rewritten()
    ensures same { box_snapshot (box_meaning (example_added ∷ [])) ≡ example_added ∷ [] }
    ensures next { box_snapshot (box_meaning (example_added ∷ N 5 ∷ [])) ≡ example_added ∷ N 5 ∷ [] }
    ensures flagged { box_snapshot (box_meaning (example_added ∷ F (record { 0 = 1 }) 8 ∷ [])) ≡ A (record { 0 = 1 }) 8 1694498816 0 (record { 0 = 1 }) (record { 0 = example_guid }) [] ∷ [] }
    ensures deleted { map_snapshot (map_meaning example_store (example_map ++ B (record { 0 = 2 }) 1 (codes "Work") ∷ B (record { 0 = 3 }) 1 (codes "Old") ∷ X (record { 0 = 3 }) [] ∷ V (record { 0 = 2 }) (codes "Home")
        ∷ G (record { 0 = 2 }) 2 ∷ [])) ≡ B (record { 0 = 1 }) 1 (codes "INBOX") ∷ B (record { 0 = 2 }) 2 (codes "Home") ∷ example_stored ∷ H (record { file = 1; map = 1; instance = 0; mailbox = 3 }) ∷ [] }
{}
