// Laws of the lines that tell what is wrong.
ghost use Rattle.std.specs.Prelude.{ℕ, List, All};
ghost use Rattle.usage_text.specs.BlameText.{IsPrinting, quoted_word};

/// A terminal shows each octet of a word between quotes, whatever the word.
pub fn quoted_words_print()
    ensures { (word : List ℕ) → All IsPrinting (quoted_word word) }
{}
