// Examples of the definitions, with what the formats say of them.
ghost use Rattle.std.specs.Prelude.{◌≡◌, ◌∷◌, [], ◌++◌, codes};
ghost use Rattle.model_logs.specs.Entries.{box_text, map_text};
ghost use Rattle.model_meaning.specs.BoxMeaning.{box_meaning, BoxFits};
ghost use Rattle.mdbox_base.specs.declared.entries.MapEntry.TheVariants as map;
ghost use Rattle.model_meaning.specs.MapMeaning.{map_meaning};
ghost use Rattle.model_meaning.specs.MapFits.{MapFits};
ghost use Rattle.model_meaning.specs.FitExamples.{example_meaning, first, other_stored, other_guid, two_stored, purge, first_place, second_place, example_counted};
ghost use Rattle.model_logs.specs.LogExamples.{example_store, box_entry, map_made, map_stored};
ghost use Rattle.model_meaning.specs.MeaningExamples.{example_guid, example_added, example_words, example_worded, example_falling, example_made, example_stored, example_map};

/// The entries of the two logs of a store with one message have these octets.
pub fn example_texts()
    ensures added { box_text example_added ≡ box_entry }
    ensures made { map_text example_made ≡ map_made }
    ensures stored { map_text example_stored ≡ map_stored }
{}

/// The mailbox log has one row, whose keywords a later entry sets; the map log one record with count 1 and the mailbox INBOX.
pub fn example_meanings()
    ensures mailbox { box_meaning (example_added ∷ []) ≡ record {
      rows = record { uid = 1; flags = 0; time = 1694498816; size = 0; map_uid = 1; guid = example_guid; words = [] } ∷ [];
      next = 2;
    } }
    ensures keywords { box_meaning (example_added ∷ example_worded ∷ []) ≡ record {
      rows = record { uid = 1; flags = 0; time = 1694498816; size = 0; map_uid = 1; guid = example_guid; words = example_words } ∷ [];
      next = 2;
    } }
    ensures map { map_meaning example_store example_map ≡ record {
      store = example_store;
      records = record { uid = 1; origin = 0; count = 1; file = 1; offset = 16; size = 89; guid = example_guid; instances = [] } ∷ [];
      boxes = record { number = 1; generation = 1; name = codes "INBOX" } ∷ [];
      sealed = [];
      highest = record { file = 1; map = 1; instance = 0; mailbox = 1 };
    } }
{}

/// Behind that mailbox log keywords can be set that rise, and none that fall; without the message none.
pub fn example_words_fit()
    ensures rising { BoxFits (box_meaning (example_added ∷ [])) example_worded }
    ensures falling { BoxFits (box_meaning (example_added ∷ [])) example_falling → ⊥ }
    ensures no_message { BoxFits (box_meaning []) example_worded → ⊥ }
{}

/// Behind that map log the record's count can be raised, and lowered once; the message can't be stored again; empty lists
/// fit. A second message can be stored directly behind the first, but not over it, and not with its GUID; a purge of their
/// file can move both, but not leave one out. A count of 65,535 can't be raised, and one of 0 neither raised nor lowered.
pub fn example_fits()
    ensures raised { MapFits example_meaning (map.U first) }
    ensures lowered { MapFits example_meaning (map.D (first ∷ [])) }
    ensures lowered_twice { MapFits (map_meaning example_store (example_map ++ map.D (first ∷ []) ∷ [])) (map.D (first ∷ [])) → ⊥ }
    ensures stored_again { MapFits example_meaning example_stored → ⊥ }
    ensures none_lowered { MapFits example_meaning (map.D []) }
    ensures none_counted { MapFits example_meaning (map.T []) }
    ensures other_stored { MapFits example_meaning (other_stored 0x69 other_guid) }
    ensures overlapping { MapFits example_meaning (other_stored 0x20 other_guid) → ⊥ }
    ensures same_guid { MapFits example_meaning (other_stored 0x69 example_guid) → ⊥ }
    ensures purged_whole { MapFits two_stored (purge (first_place ∷ second_place ∷ [])) }
    ensures purged_part { MapFits two_stored (purge (first_place ∷ [])) → ⊥ }
    ensures raised_full { MapFits (example_counted 65535) (map.U first) → ⊥ }
    ensures raised_none { MapFits (example_counted 0) (map.U first) → ⊥ }
{}
