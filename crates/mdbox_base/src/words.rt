// Keywords of messages.
ghost use Rattle.std.specs.Prelude.{◌≡◌, ◌≢◌, ◌≤◌, ◌↔◌, [], ℕ, false, List, length, All, AllPairs, IsTrue, IsErr, IfOk, IfSome, IfNone};
ghost use Rattle.std.specs.Cmp.Lexicographic.{slice_cmp};
ghost use Rattle.std.specs.Ordering.{nat_cmp, is_lt};
ghost use Rattle.std.specs.declared.cmp.Ordering.TheVariants.{Less};
ghost use Rattle.std.specs.List.{list_any};
ghost use Rattle.std.specs.Str.{bytes_eq};
ghost use Rattle.mdbox_base.specs.Keywords.{IsAtomOctet, IsKeyword, AreWords, AreWordsOf, AreWordsWith, CanBeWords};

use crate::memory::NoMemory;
use crate::octets::Octets;
use crate::seq::Seq;
use std::alloc::Global;
use std::cmp::Ordering;
use std::marker::Model;

/// The most keywords of a message.
const MOST_WORDS: usize = 32;

/// The keywords of a message (RFC 9051, section 2.3.2): at most 32 atoms of 1 to 64 octets each, in rising order of octets.
#[derive(Drop)]
pub struct Words {
    texts: Seq<Octets>,
}

impl Model for Words {
    ghost use Rattle.std.specs.Prelude.{ℕ, List};
    ghost use Rattle.mdbox_base.specs.Keywords.{AreWords};

    ghost Value = { List (List ℕ) };

    ghost view = { λ w. w.texts };

    ghost invariant = { λ w. AreWords w.texts };
}

impl Words {
    /// No keywords.
    pub fn none(alloc: Global) -> Words
        ensures { result ≡ [] }
    {
        Words {
            texts: Seq::empty(alloc),
        }
    }

    /// The keywords with these texts.
    pub fn of(texts: Seq<Octets>) -> Words
        requires words { AreWords texts }
        ensures { result ≡ texts }
    {
        Words { texts }
    }

    /// The texts, in rising order.
    pub fn as_slice(&self) -> &[Octets]
        ensures same { result.now ≡ self.now }
        ensures words { AreWords result.now }
    {
        self.texts.as_slice()
    }

    /// A copy of the texts.
    pub fn texts(&self, alloc: Global) -> Result<Seq<Octets>, NoMemory>
        ensures ok { IfOk result (λ texts. texts ≡ self.now) }
        ensures memory { IsErr result → self.now ≢ [] }
    {
        copied_texts(alloc, self.as_slice())
    }

    /// A copy of the keywords.
    pub fn copied(&self, alloc: Global) -> Result<Words, NoMemory>
        ensures ok { IfOk result (λ words. words ≡ self.now) }
        ensures memory { IsErr result → self.now ≢ [] }
    {
        let texts = copied_texts(alloc, self.as_slice())?;
        Ok(Words::of(texts))
    }
}

/// A copy of texts. No texts take no memory.
pub fn copied_texts(alloc: Global, texts: &[Octets]) -> Result<Seq<Octets>, NoMemory>
    ensures ok { IfOk result (λ copy. copy ≡ texts.now) }
    ensures memory { IsErr result → texts.now ≢ [] }
{
    let mut copy = Seq::empty(alloc);
    for text in texts {
        copy.push(copied_text(alloc, text)?)?;
    }
    Ok(copy)
}

/// A copy of a text.
fn copied_text(alloc: Global, text: &Octets) -> Result<Octets, NoMemory>
    ensures { IfOk result (λ copy. copy ≡ text.now) }
{
    let mut copy = Octets::empty(alloc);
    copy.push_all(text.as_slice())?;
    Ok(copy)
}

/// The keywords that these texts are, in any order and with repeats: none if one isn't a keyword, or more than 32 are
/// different.
pub fn words_of(alloc: Global, texts: &Seq<Octets>) -> Result<Option<Words>, NoMemory>
    ensures some { IfOk result (λ found. IfSome found (λ words. AreWordsOf texts.now words × CanBeWords texts.now)) }
    ensures none { IfOk result (λ found. IfNone found (CanBeWords texts.now → ⊥)) }
    ensures memory { IsErr result → texts.now ≢ [] }
{
    let mut words = Vec::new(alloc);
    for text in texts.as_slice() {
        if !is_word(text) || !add_word(alloc, &mut words, text)? {
            return Ok(None);
        }
    }
    Ok(Some(Words::of(Seq::of(words))))
}

/// Puts a text among keywords that rise, at its place, unless it is there. False if there would be 33.
fn add_word(alloc: Global, words: &mut Vec<Octets>, text: &Octets) -> Result<bool, NoMemory>
    requires rising { AllPairs (λ a b. slice_cmp nat_cmp a b ≡ Less) words.old.items }
    requires few { length words.old.items ≤ 32 }
    ensures there { IfOk result (λ there. IsTrue there → AreWordsWith text.now words.old.items words.new.items) }
    ensures full { IfOk result (λ there. there ≡ false → (length words.old.items ≡ 32) × (list_any (bytes_eq text.now) words.old.items ≡ false)) }
{
    match words.binary_search_by(|word| order_of(word, text)) {
        Ok(_) => Ok(true),
        Err(_) if words.len() >= MOST_WORDS => Ok(false),
        Err(place) => {
            words.insert(place, copied_text(alloc, text)?)?;
            Ok(true)
        }
    }
}

/// Whether these texts are the keywords of a message.
pub fn are_words(texts: &[Octets]) -> bool
    ensures { IsTrue result ↔ AreWords texts.now }
{
    texts.len() <= MOST_WORDS && texts.iter().all(is_word) && is_rising(texts)
}

fn is_word(text: &Octets) -> bool
    ensures { IsTrue result ↔ IsKeyword text.now }
{
    is_keyword(text.as_slice())
}

/// Whether these octets are a keyword.
pub fn is_keyword(octets: &[u8]) -> bool
    ensures { IsTrue result ↔ IsKeyword octets.now }
{
    (1..=64).contains(&octets.len()) && octets.iter().all(|octet| is_atom_octet(*octet))
}

fn is_atom_octet(octet: u8) -> bool
    ensures { IsTrue result ↔ IsAtomOctet octet }
{
    (33..=126).contains(&octet)
        && !matches!(
            octet,
            b'(' | b')' | b'{' | b'%' | b'*' | b'"' | b'\\' | b']'
        )
}

/// Whether each text is before the next, octet for octet.
fn is_rising(texts: &[Octets]) -> bool
    ensures { IsTrue result ↔ AllPairs (λ a b. slice_cmp nat_cmp a b ≡ Less) texts.now }
{
    texts.is_sorted_by(comes_before)
}

fn comes_before(a: &Octets, b: &Octets) -> bool
    ensures { result ≡ is_lt (slice_cmp nat_cmp a.now b.now) }
{
    a.as_slice() < b.as_slice()
}

fn order_of(a: &Octets, b: &Octets) -> Ordering
    ensures { result ≡ slice_cmp nat_cmp a.now b.now }
{
    a.as_slice().cmp(b.as_slice())
}
