// Laws of the texts of entries.
ghost use Rattle.std.specs.Prelude.{ℕ};
ghost use Rattle.model_logs.specs.Entries.{root_text, map_text, text_in, RootInRange, MapInRange, InRangeIn, HasOneText};

/// No two entries have one text; those of a mailbox in each version.
pub fn one_spelling()
    ensures root { HasOneText root_text RootInRange }
    ensures mailbox { (version : ℕ) → HasOneText (text_in version) (InRangeIn version) }
    ensures map { HasOneText map_text MapInRange }
{}
