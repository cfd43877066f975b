// Examples of journals.
ghost use Rattle.std.specs.Prelude.{◌≡◌, ◌∷◌, [], Some, true, false};
ghost use Rattle.disk_model.specs.Disk.{Faults};
ghost use Rattle.mdbox_base.specs.declared.replies.Refusal.TheVariants as refusal;
ghost use Rattle.mdbox_base.specs.declared.replies.Reply.TheVariants as reply;
ghost use Rattle.list_machine.specs.Run.{before, map_of, drawn_of};
ghost use Rattle.journal.specs.Journal.{AreSteps, no_broken};
ghost use Rattle.journal.specs.Found.{is_taken, FindsFiles};
ghost use Rattle.journal.specs.Makes.{AreNextEvents, IsServed};
ghost use Rattle.journal.specs.JournalExamples.{first_run, first_script, first_lists, first_journal, second_run, second_script, lists_saved, second_journal, third_run, third_script, third_lists, third_journal, fourth_run, fourth_script, fourth_journal, fourth_around, nothing_around};

/// Three journals: of a delivery and a listing, of a copy whose message is expunged between its two events, and of two moves
/// of one message. The second is that of a whole run. And a purge beside a fetch that has pinned the file that it switches,
/// and unpins it before the purge goes on: each event is the next of its lane, and the purge found the file that has to go.
pub fn example_journals()
    ensures first { AreSteps first_run first_script first_lists first_journal }
    ensures second { AreSteps second_run second_script lists_saved second_journal }
    ensures third { AreSteps third_run third_script third_lists third_journal }
    ensures served { (now : Faults) → IsServed lists_saved second_script second_run second_journal no_broken (Some (reply.Refused refusal.NoMessage) ∷ Some reply.Done ∷ []) now now (map_of (before 0 second_run)) (map_of second_run) (drawn_of second_run) 16 }
    ensures purge { AreSteps fourth_run fourth_script lists_saved fourth_journal }
    ensures purge_events { AreNextEvents fourth_around (λ _. nothing_around) fourth_script lists_saved fourth_run fourth_journal }
    ensures purge_found { FindsFiles (before 1 fourth_run) (1 ∷ []) }
    // A purge's files are taken from its first event to the switch, a delivery's until its record is stored.
    ensures purge_takes { (is_taken (before 1 fourth_run) 1 ≡ false) × (is_taken (before 2 fourth_run) 1 ≡ true) × (is_taken (before 4 fourth_run) 2 ≡ true) × (is_taken (before 5 fourth_run) 1 ≡ false) × (is_taken (before 5 fourth_run) 2 ≡ false) }
    ensures delivery_takes { (is_taken (before 1 first_run) 1 ≡ false) × (is_taken (before 2 first_run) 1 ≡ true) × (is_taken (before 3 first_run) 1 ≡ true) × (is_taken (before 4 first_run) 1 ≡ false) }
{}
