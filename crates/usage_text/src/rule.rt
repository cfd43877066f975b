// What a word of a command may be.
ghost use Rattle.std.specs.Prelude.{◌≡◌, ◌≤◌, ◌<◌, ◌^◌, ◌↔◌, ℕ, List, length, IsTrue};
ghost use Rattle.hex.specs.Hex.{encode_lower};
ghost use Rattle.mdbox_base.specs.Words.{IsOctets, IsName};
ghost use Rattle.usage_text.specs.Blames.{FitsRule, IsDecimal};
ghost use Rattle.usage_text.specs.declared.rule.Rule.TheVariants as rule;

use mdbox_base::{is_keyword, name_of, read_decimal, read_lower_hex};
use std::alloc::Global;

/// What a word of a command may be.
#[derive(Clone, Copy, Debug, PartialEq, Eq)]
pub enum Rule {
    /// The id of a store.
    Id,
    /// The name of a mailbox.
    Name,
    Uid,
    Flags,
    Keyword,
    /// How many lanes a script has.
    Lanes,
    /// How many requests an exercise has.
    Requests,
    /// The number that makes an exercise.
    Number,
}

/// Whether a rule allows a word.
pub(crate) fn fits(alloc: Global, rule: Rule, word: &[u8]) -> bool
    ensures { IsTrue result ↔ FitsRule rule word.now }
{
    match rule {
        Rule::Id => is_id(word),
        Rule::Name => is_name(alloc, word),
        Rule::Uid => is_decimal(word, 1, 4_294_967_294),
        Rule::Flags => is_decimal(word, 0, 31),
        Rule::Keyword => is_keyword(word),
        Rule::Lanes => is_decimal(word, 1, 64),
        Rule::Requests => is_decimal(word, 1, 100_000),
        Rule::Number => is_decimal(word, 0, u64::MAX),
    }
}

/// Whether a word is the id of a store.
fn is_id(word: &[u8]) -> bool
    ensures { IsTrue result ↔ FitsRule rule.Id word.now }
{
    let id: Option<[u8; 8]> = read_lower_hex(word);
    id.is_some()
}

/// Whether a word is the name of a mailbox. Without memory for the name it is one.
fn is_name(alloc: Global, word: &[u8]) -> bool
    ensures { IsTrue result ↔ IsName word.now }
{
    !matches!(name_of(alloc, word), Ok(None))
}

/// Whether a word is a number of a range.
fn is_decimal(word: &[u8], least: u64, most: u64) -> bool
    ensures { IsTrue result ↔ IsDecimal least most word.now }
{
    match read_decimal(word) {
        Some(number) => is_between(number, least, most),
        None => false,
    }
}

/// Whether a number is in a range.
fn is_between(number: u64, least: u64, most: u64) -> bool
    ensures { IsTrue result ↔ ((least ≤ number) × (number ≤ most)) }
{
    least <= number && number <= most
}
