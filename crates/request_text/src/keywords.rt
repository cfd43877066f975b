// The keywords among the words of a command.
ghost use Rattle.std.specs.Prelude.{◌≡◌, ◌≤◌, ◌<◌, ◌↔◌, ℕ, All, length, map, string_bytes, IfSome, IfNone, IfOk, IsErrOf, IsTrue};
ghost use Rattle.mdbox_base.specs.Keywords.{AreWordsOf, CanBeWords, IsKeyword};
ghost use Rattle.mdbox_base.specs.Words.{count_different};
ghost use Rattle.request_text.specs.GivenWords.{StandsAgain, text_at};
ghost use Rattle.request_text.specs.declared.words.WordsError.TheVariants as words_error;

use crate::words::WordsError;
use mdbox_base::{NoMemory, Octets, Seq, Words, is_keyword, words_of};
use std::alloc::Global;

/// How many different keywords a message has at most.
const MOST_KEYWORDS: usize = 32;

/// The place of the first word that is no keyword.
pub fn first_other(words: &[String]) -> Option<usize>
    ensures some { IfSome result (λ place. (place < length words.now) × (IsKeyword (text_at (map string_bytes words.now) place) → ⊥) × ((earlier : ℕ) → earlier < place → IsKeyword (text_at (map string_bytes words.now) earlier))) }
    ensures none { IfNone result (All IsKeyword (map string_bytes words.now)) }
{
    for (place, word) in words.iter().enumerate() {
        if !is_keyword(word.as_bytes()) {
            return Some(place);
        }
    }
    None
}

/// Whether each word is a keyword.
pub(crate) fn are_keywords(words: &[String]) -> bool
    ensures { IsTrue result ↔ All IsKeyword (map string_bytes words.now) }
{
    first_other(words).is_none()
}

/// Whether at most 32 of these words are different. It takes no memory.
pub fn are_few(words: &[String]) -> bool
    ensures { IsTrue result ↔ (count_different (map string_bytes words.now) ≤ 32) }
{
    let mut places = [0; MOST_KEYWORDS];
    let mut found = 0;
    let mut place = 0;
    while place < words.len() {
        if !is_among(words, &places[..found], place) {
            if found == MOST_KEYWORDS {
                return false;
            }
            places[found] = place;
            found += 1;
        }
        place += 1;
    }
    true
}

/// Whether the word at a place also stands at one of these.
fn is_among(words: &[String], places: &[usize], place: usize) -> bool
    requires within { place < length words.now }
    requires each { All (λ other. other < length words.now) places.now }
    ensures { IsTrue result ↔ StandsAgain (map string_bytes words.now) places.now place }
{
    for other in places {
        if words[*other].as_bytes() == words[place].as_bytes() {
            return true;
        }
    }
    false
}

/// The keywords that these words are, each once.
pub(crate) fn read_texts(alloc: Global, words: &[String]) -> Result<Words, WordsError>
    ensures says { IfOk result (AreWordsOf (map string_bytes words.now)) }
    ensures usage { IsErrOf result words_error.Usage → CanBeWords (map string_bytes words.now) → ⊥ }
{
    let Ok(texts) = texts_of(alloc, words) else {
        return Err(WordsError::NoMemory);
    };
    match words_of(alloc, &texts) {
        Ok(Some(keywords)) => Ok(keywords),
        Ok(None) => Err(WordsError::Usage),
        Err(NoMemory) => Err(WordsError::NoMemory),
    }
}

/// A copy of these words.
fn texts_of(alloc: Global, words: &[String]) -> Result<Seq<Octets>, NoMemory>
    ensures { IfOk result (λ texts. texts ≡ map string_bytes words.now) }
{
    let mut texts = Seq::empty(alloc);
    for word in words {
        texts.push(text_of(alloc, word.as_bytes())?)?;
    }
    Ok(texts)
}

fn text_of(alloc: Global, word: &[u8]) -> Result<Octets, NoMemory>
    ensures { IfOk result (λ text. text ≡ word.now) }
{
    let mut text = Octets::empty(alloc);
    text.push_all(word)?;
    Ok(text)
}
