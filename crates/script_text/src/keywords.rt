// Keywords behind their number: looked at whole before one is copied.
ghost use Rattle.std.specs.Prelude.{◌≡◌, ◌≢◌, ◌++◌, ◌∷◌, ◌↔◌, ℕ, List, length, IsTrue, IfOk, IfSome, IfNone};
ghost use Rattle.std.specs.Cmp.Lexicographic.{slice_cmp};
ghost use Rattle.std.specs.List.{list_all};
ghost use Rattle.std.specs.Ordering.{nat_cmp};
ghost use Rattle.std.specs.declared.cmp.Ordering.TheVariants.{Less};
ghost use Rattle.mdbox_base.specs.Keywords.{AreWords, IsKeyword};
ghost use Rattle.mdbox_base.specs.Numbers.{decimal_text};
ghost use Rattle.mdbox_base.specs.Words.{is_other_than};
ghost use Rattle.script_text.specs.Reading.{AreCountedWords, AreTextsOf, IsAtSpace, each_spaced};
ghost use Rattle.script_text.specs.Script.{spaced};

use mdbox_base::{NoMemory, Octets, Seq, Words, is_keyword, read_decimal};
use memchr::memchr;
use std::alloc::Global;

/// How many keywords a message has at most.
const MOST_KEYWORDS: u64 = 32;

/// Whether words are keywords behind their number.
pub fn are_counted(words: &[u8]) -> bool
    ensures { IsTrue result ↔ AreCountedWords words.now }
{
    let (number, rest) = first_word(words);
    let Some(count) = read_decimal(number) else {
        return false;
    };
    let Some(many) = keywords_in(rest) else {
        return false;
    };
    count == many
}

/// How many keywords a text is, each behind one space and after the one before it in order.
fn keywords_in(text: &[u8]) -> Option<u64>
    requires { IsAtSpace text.now }
    ensures some { IfSome result (λ many. (words : List (List ℕ)) × AreWords words × (text.now ≡ each_spaced words) × (length words ≡ many)) }
    ensures none { IfNone result ((words : List (List ℕ)) → AreWords words → text.now ≢ each_spaced words) }
{
    let mut before: &[u8] = &[];
    let mut many = 0;
    let mut left = text;
    while let Some(words) = left.strip_prefix(b" ") {
        let (word, behind) = first_word(words);
        if many == MOST_KEYWORDS {
            return None;
        }
        if !follows(before, word) {
            return None;
        }
        before = word;
        many += 1;
        left = behind;
    }
    Some(many)
}

/// Whether a word is a keyword, and after another in order.
fn follows(before: &[u8], word: &[u8]) -> bool
    ensures { IsTrue result ↔ (IsKeyword word.now × (slice_cmp nat_cmp before.now word.now ≡ Less)) }
{
    is_keyword(word) && before < word
}

/// The keywords behind their number.
pub fn counted_words(alloc: Global, words: &[u8]) -> Result<Words, NoMemory>
    requires { AreCountedWords words.now }
    ensures { IfOk result (λ keywords. AreWords keywords × (words.now ≡ spaced (decimal_text (length keywords) ∷ keywords))) }
{
    let (_number, rest) = first_word(words);
    let texts = texts_of(alloc, rest)?;
    Ok(Words::of(texts))
}

/// Words without a space, each behind one space.
fn texts_of(alloc: Global, text: &[u8]) -> Result<Seq<Octets>, NoMemory>
    requires { IsAtSpace text.now }
    ensures { IfOk result (λ texts. AreTextsOf texts text.now) }
{
    let mut texts = Seq::empty(alloc);
    let mut left = text;
    while let Some(words) = left.strip_prefix(b" ") {
        let (word, behind) = first_word(words);
        texts.push(octets_of(alloc, word)?)?;
        left = behind;
    }
    Ok(texts)
}

/// The word up to the first space, and the rest of the text, which begins with that space.
fn first_word(text: &[u8]) -> (&[u8], &[u8])
    ensures parts { text.now ≡ result.0.now ++ result.1.now }
    ensures word { IsTrue (list_all (is_other_than 32) result.0.now) }
    ensures rest { IsAtSpace result.1.now }
{
    match memchr(b' ', text) {
        Some(place) => text.split_at(place),
        None => (text, &[]),
    }
}

/// A copy of octets.
fn octets_of(alloc: Global, octets: &[u8]) -> Result<Octets, NoMemory>
    ensures { IfOk result (λ copy. copy ≡ octets.now) }
{
    let mut copy = Octets::empty(alloc);
    copy.push_all(octets)?;
    Ok(copy)
}
