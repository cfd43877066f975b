// Keywords, read from the front of a text and written to a place of one: their number in one octet, and each with its length before it.
ghost use Rattle.std.specs.Prelude.{◌≡◌, ◌==◌, ◌+◌, ◌<◌, ◌≤◌, ◌++◌, ◌⊎◌, ◌∷◌, ℕ, List, length, take, flat_map, IfOk, IsErr, MatchOption};
ghost use Rattle.model_logs.specs.Entries.{name_text, words_text, added_words, WordsInRange};
ghost use Rattle.log_records.specs.Worded.{AreShort, HasNoTexts, HasNoWords};

use crate::fields::{octet_at, put};
use mdbox_base::{NoMemory, Octets, Seq};
use std::alloc::Global;

/// The keyword in front, and what follows it.
fn word_at(text: &[u8]) -> Option<(&[u8], &[u8])>
    ensures { MatchOption result ((word rest : List ℕ) → text.now ≡ name_text word ++ rest → ⊥) (λ found. (text.now ≡ name_text found.0.now ++ found.1.now) × (length found.0.now < 256)) }
{
    let (size, rest) = octet_at(text)?;
    rest.split_at_checked(size as usize)
}

/// So many keywords, and what follows them.
fn texts_at(
    alloc: Global,
    count: usize,
    text: &[u8],
) -> Result<Option<(Seq<Octets>, &[u8])>, NoMemory>
    ensures { IfOk result (λ found. MatchOption found (HasNoTexts count text.now) (λ x. (text.now ≡ flat_map name_text x.0 ++ x.1.now) × (length x.0 ≡ count) × AreShort x.0)) }
{
    let mut texts = Seq::empty(alloc);
    let mut rest = text;
    for _ in 0..count {
        let Some((word, behind)) = word_at(rest) else {
            return Ok(None);
        };
        texts.push(text_of(alloc, word)?)?;
        rest = behind;
    }
    Ok(Some((texts, rest)))
}

fn text_of(alloc: Global, word: &[u8]) -> Result<Octets, NoMemory>
    ensures { IfOk result (λ text. text ≡ word.now) }
{
    let mut text = Octets::empty(alloc);
    text.push_all(word)?;
    Ok(text)
}

/// The keywords that are the whole text.
pub fn only_words(alloc: Global, text: &[u8]) -> Result<Option<Seq<Octets>>, NoMemory>
    ensures { IfOk result (λ found. MatchOption found
        ((words : List (List ℕ)) → text.now ≡ words_text words → ⊥)
        (λ words. (text.now ≡ words_text words) × (length words < 256) × AreShort words)) }
{
    let Some((count, rest)) = octet_at(text) else {
        return Ok(None);
    };
    let Some((texts, rest)) = texts_at(alloc, count as usize, rest)? else {
        return Ok(None);
    };
    if !rest.is_empty() {
        return Ok(None);
    }
    Ok(Some(texts))
}

/// The keywords of an added message, where this is all that stands behind its GUID: none in version 1.
pub fn words_behind(
    alloc: Global,
    text: &[u8],
    version: u8,
) -> Result<Option<Seq<Octets>>, NoMemory>
    requires { (version ≡ 1) ⊎ (version ≡ 2) }
    ensures words { IfOk result (λ found. MatchOption found (HasNoWords (version == 2) text.now) (λ words. (text.now ≡ added_words (version == 2) words) × WordsInRange (version == 2) words)) }
    ensures memory { IsErr result → version ≡ 2 }
{
    if version == 2 {
        return only_words(alloc, text);
    }
    if text.is_empty() {
        Ok(Some(Seq::empty(alloc)))
    } else {
        Ok(None)
    }
}

/// How many octets keywords have with their number and lengths.
pub fn words_size(words: &[Octets]) -> usize
    requires count { length words.now < 256 }
    requires short { AreShort words.now }
    ensures size { result ≡ length (words_text words.now) }
    ensures small { result < 65536 }
{
    let mut size = 1;
    for word in words {
        size += 1 + word.length();
    }
    size
}

/// Writes keywords, and answers the place behind them.
pub fn put_words(into: &mut [u8], place: usize, words: &[Octets]) -> usize
    requires count { length words.now < 256 }
    requires short { AreShort words.now }
    requires room { place + length (words_text words.now) ≤ length into.old }
    ensures behind { result ≡ place + length (words_text words.now) }
    ensures front { take result into.new ≡ take place into.old ++ words_text words.now }
    ensures length { length into.new ≡ length into.old }
{
    let place = put(into, place, &[words.len() as u8]);
    put_texts(into, place, words)
}

/// Writes each keyword behind its length.
fn put_texts(into: &mut [u8], place: usize, words: &[Octets]) -> usize
    requires short { AreShort words.now }
    requires room { place + length (flat_map name_text words.now) ≤ length into.old }
    ensures behind { result ≡ place + length (flat_map name_text words.now) }
    ensures front { take result into.new ≡ take place into.old ++ flat_map name_text words.now }
    ensures length { length into.new ≡ length into.old }
{
    let mut end = place;
    for word in words {
        end = put_word(into, end, word.as_slice());
    }
    end
}

fn put_word(into: &mut [u8], place: usize, word: &[u8]) -> usize
    requires short { length word.now < 256 }
    requires room { place + 1 + length word.now ≤ length into.old }
    ensures behind { result ≡ place + 1 + length word.now }
    ensures front { take result into.new ≡ take place into.old ++ name_text word.now }
    ensures length { length into.new ≡ length into.old }
{
    let place = put(into, place, &[word.len() as u8]);
    put(into, place, word)
}
