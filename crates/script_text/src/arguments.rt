// The words that follow the verb of a request: names, UIDs, flags, keywords, times and sizes. Where one is bad they are bad, and
// never out of memory.
ghost use Rattle.std.specs.Prelude.{◌≡◌, ◌≢◌, ◌≤◌, ◌<◌, ◌^◌, ◌++◌, ◌∷◌, [], ℕ, List, length, IfSome, IfNone, IfOk, IsErrOf};
ghost use Rattle.mdbox_base.specs.Keywords.{AreWords};
ghost use Rattle.mdbox_base.specs.Numbers.{decimal_text};
ghost use Rattle.mdbox_base.specs.Words.{IsNumber, IsName};
ghost use Rattle.script_text.specs.Script.{name_word, spaced};
ghost use Rattle.script_text.specs.declared.error.Flaw.TheVariants as flaw;

use crate::cut::cut;
use crate::error::Flaw;
use crate::keywords::{are_counted, counted_words};
use mdbox_base::{Flags, Name, Uid, Words, flags_of, is_number, name_of, read_decimal};
use std::alloc::Global;

/// The name that a word is.
pub fn name_alone(alloc: Global, word: &[u8]) -> Result<Name, Flaw>
    ensures found { IfOk result (λ name. IsName name × (word.now ≡ name_word name)) }
    ensures bad { IsErrOf result flaw.Bad → (name : List ℕ) → IsName name → word.now ≢ name_word name }
    ensures memory { IsErrOf result flaw.NoMemory → (name : List ℕ) × IsName name × (word.now ≡ name_word name) }
{
    let Some(octets) = octets_alone(word) else {
        return Err(Flaw::Bad);
    };
    name_from(alloc, octets)
}

/// A name and a UID.
pub fn name_and_uid(alloc: Global, words: &[u8]) -> Result<(Name, Uid), Flaw>
    ensures found { IfOk result (λ x. IsName x.0 × IsNumber x.1.0 × (words.now ≡ spaced (name_word x.0 ∷ decimal_text x.1.0 ∷ []))) }
    ensures bad { IsErrOf result flaw.Bad → (name : List ℕ) (uid : ℕ) → IsName name → IsNumber uid → words.now ≢ spaced (name_word name ∷ decimal_text uid ∷ []) }
    ensures memory { IsErrOf result flaw.NoMemory → (name : List ℕ) × (uid : ℕ) × IsName name × IsNumber uid × (words.now ≡ spaced (name_word name ∷ decimal_text uid ∷ [])) }
{
    let Some((octets, word)) = octets_and_rest(words) else {
        return Err(Flaw::Bad);
    };
    let Some(uid) = uid_of(word) else {
        return Err(Flaw::Bad);
    };
    let name = name_from(alloc, octets)?;
    Ok((name, uid))
}

/// A name and another name.
pub fn name_and_name(alloc: Global, words: &[u8]) -> Result<(Name, Name), Flaw>
    ensures found { IfOk result (λ x. IsName x.0 × IsName x.1 × (words.now ≡ spaced (name_word x.0 ∷ name_word x.1 ∷ []))) }
    ensures bad { IsErrOf result flaw.Bad → (name target : List ℕ) → IsName name → IsName target → words.now ≢ spaced (name_word name ∷ name_word target ∷ []) }
    ensures memory { IsErrOf result flaw.NoMemory → (name : List ℕ) × (target : List ℕ) × IsName name × IsName target × (words.now ≡ spaced (name_word name ∷ name_word target ∷ [])) }
{
    let Some((first, word)) = octets_and_rest(words) else {
        return Err(Flaw::Bad);
    };
    let Some(second) = octets_alone(word) else {
        return Err(Flaw::Bad);
    };
    names_from(alloc, first, second)
}

/// A name, a UID and flags.
pub fn name_uid_flags(alloc: Global, words: &[u8]) -> Result<(Name, Uid, Flags), Flaw>
    ensures found { IfOk result (λ x. IsName x.0 × IsNumber x.1.0 × (x.2 ≤ 31) × (words.now ≡ spaced (name_word x.0 ∷ decimal_text x.1.0 ∷ decimal_text x.2 ∷ []))) }
    ensures bad { IsErrOf result flaw.Bad → (name : List ℕ) (uid flags : ℕ) → IsName name → IsNumber uid → flags ≤ 31 → words.now ≢ spaced (name_word name ∷ decimal_text uid ∷ decimal_text flags ∷ []) }
    ensures memory { IsErrOf result flaw.NoMemory → (name : List ℕ) × (uid : ℕ) × (flags : ℕ) × IsName name × IsNumber uid × (flags ≤ 31) × (words.now ≡ spaced (name_word name ∷ decimal_text uid ∷ decimal_text flags ∷ [])) }
{
    let Some((octets, uid, word)) = octets_uid_rest(words) else {
        return Err(Flaw::Bad);
    };
    let Some(flags) = flags_from(word) else {
        return Err(Flaw::Bad);
    };
    let name = name_from(alloc, octets)?;
    Ok((name, uid, flags))
}

/// A name, a UID, and keywords behind their number.
pub fn name_uid_words(alloc: Global, words: &[u8]) -> Result<(Name, Uid, Words), Flaw>
    ensures found { IfOk result (λ x. IsName x.0 × IsNumber x.1.0 × AreWords x.2 × (words.now ≡ spaced (name_word x.0 ∷ decimal_text x.1.0 ∷ decimal_text (length x.2) ∷ x.2))) }
    ensures bad { IsErrOf result flaw.Bad → (name : List ℕ) (uid : ℕ) (keywords : List (List ℕ)) → IsName name → IsNumber uid → AreWords keywords → words.now ≢ spaced (name_word name ∷ decimal_text uid ∷ decimal_text (length keywords) ∷ keywords) }
    ensures memory { IsErrOf result flaw.NoMemory → (name : List ℕ) × (uid : ℕ) × (keywords : List (List ℕ)) × IsName name × IsNumber uid × AreWords keywords × (words.now ≡ spaced (name_word name ∷ decimal_text uid ∷ decimal_text (length keywords) ∷ keywords)) }
{
    let Some((octets, uid, rest)) = octets_uid_rest(words) else {
        return Err(Flaw::Bad);
    };
    if !are_counted(rest) {
        return Err(Flaw::Bad);
    }
    let name = name_from(alloc, octets)?;
    let keywords = counted_words(alloc, rest)?;
    Ok((name, uid, keywords))
}

/// A name, a UID and another name.
pub fn name_uid_name(alloc: Global, words: &[u8]) -> Result<(Name, Uid, Name), Flaw>
    ensures found { IfOk result (λ x. IsName x.0 × IsNumber x.1.0 × IsName x.2 × (words.now ≡ spaced (name_word x.0 ∷ decimal_text x.1.0 ∷ name_word x.2 ∷ []))) }
    ensures bad { IsErrOf result flaw.Bad → (name : List ℕ) (uid : ℕ) (target : List ℕ) → IsName name → IsNumber uid → IsName target → words.now ≢ spaced (name_word name ∷ decimal_text uid ∷ name_word target ∷ []) }
    ensures memory { IsErrOf result flaw.NoMemory → (name : List ℕ) × (uid : ℕ) × (target : List ℕ) × IsName name × IsNumber uid × IsName target × (words.now ≡ spaced (name_word name ∷ decimal_text uid ∷ name_word target ∷ [])) }
{
    let Some((first, uid, word)) = octets_uid_rest(words) else {
        return Err(Flaw::Bad);
    };
    let Some(second) = octets_alone(word) else {
        return Err(Flaw::Bad);
    };
    let (name, target) = names_from(alloc, first, second)?;
    Ok((name, uid, target))
}

/// A name, a time and a size.
pub fn name_time_size(alloc: Global, words: &[u8]) -> Result<(Name, u64, u64), Flaw>
    ensures found { IfOk result (λ x. IsName x.0 × (x.1 < 2 ^ 64) × (x.2 < 2 ^ 64) × (words.now ≡ spaced (name_word x.0 ∷ decimal_text x.1 ∷ decimal_text x.2 ∷ []))) }
    ensures bad { IsErrOf result flaw.Bad → (name : List ℕ) (time size : ℕ) → IsName name → time < 2 ^ 64 → size < 2 ^ 64 → words.now ≢ spaced (name_word name ∷ decimal_text time ∷ decimal_text size ∷ []) }
{
    let Some((octets, time, size)) = octets_time_size(words) else {
        return Err(Flaw::Bad);
    };
    let name = name_from(alloc, octets)?;
    Ok((name, time, size))
}

/// The octets of a name, a time and a size. Whether they are a name isn't looked at.
pub fn octets_time_size(words: &[u8]) -> Option<(&[u8], u64, u64)>
    ensures some { IfSome result (λ x. (length x.0.now < 2 ^ 64) × (x.1 < 2 ^ 64) × (x.2 < 2 ^ 64) × (words.now ≡ spaced (name_word x.0.now ∷ decimal_text x.1 ∷ decimal_text x.2 ∷ []))) }
    ensures none { IfNone result ((name : List ℕ) (time size : ℕ) → length name < 2 ^ 64 → time < 2 ^ 64 → size < 2 ^ 64 → words.now ≢ spaced (name_word name ∷ decimal_text time ∷ decimal_text size ∷ [])) }
{
    let Some((octets, rest)) = octets_and_rest(words) else {
        return None;
    };
    let Some((time, size)) = two_numbers(rest) else {
        return None;
    };
    Some((octets, time, size))
}

/// The octets of a name, a UID, and what follows them. Whether they are a name isn't looked at.
fn octets_uid_rest(words: &[u8]) -> Option<(&[u8], Uid, &[u8])>
    ensures some { IfSome result (λ x. (length x.0.now < 2 ^ 64) × IsNumber x.1.0 × (words.now ≡ spaced (name_word x.0.now ∷ decimal_text x.1.0 ∷ x.2.now ∷ []))) }
    ensures none { IfNone result ((name : List ℕ) (uid : ℕ) (rest : List ℕ) → length name < 2 ^ 64 → IsNumber uid → words.now ≢ spaced (name_word name ∷ decimal_text uid ∷ rest ∷ [])) }
{
    let Some((octets, behind)) = octets_and_rest(words) else {
        return None;
    };
    let Some((uid, rest)) = uid_and_rest(behind) else {
        return None;
    };
    Some((octets, uid, rest))
}

/// The octets of a name, and what follows them. Whether they are a name isn't looked at.
fn octets_and_rest(words: &[u8]) -> Option<(&[u8], &[u8])>
    ensures some { IfSome result (λ x. (length x.0.now < 2 ^ 64) × (words.now ≡ spaced (name_word x.0.now ∷ x.1.now ∷ []))) }
    ensures none { IfNone result ((name rest : List ℕ) → length name < 2 ^ 64 → words.now ≢ spaced (name_word name ∷ rest ∷ [])) }
{
    let Some((octets, behind)) = name_octets(words) else {
        return None;
    };
    let Some(rest) = behind.strip_prefix(b" ") else {
        return None;
    };
    Some((octets, rest))
}

/// The octets of the name word that a word is. Whether they are a name isn't looked at.
fn octets_alone(word: &[u8]) -> Option<&[u8]>
    ensures some { IfSome result (λ octets. (length octets.now < 2 ^ 64) × (word.now ≡ name_word octets.now)) }
    ensures none { IfNone result ((name : List ℕ) → length name < 2 ^ 64 → word.now ≢ name_word name) }
{
    let Some((octets, rest)) = name_octets(word) else {
        return None;
    };
    if !rest.is_empty() {
        return None;
    }
    Some(octets)
}

/// A UID and what follows it.
fn uid_and_rest(words: &[u8]) -> Option<(Uid, &[u8])>
    ensures some { IfSome result (λ x. IsNumber x.0.0 × (words.now ≡ spaced (decimal_text x.0.0 ∷ x.1.now ∷ []))) }
    ensures none { IfNone result ((uid : ℕ) (rest : List ℕ) → IsNumber uid → words.now ≢ spaced (decimal_text uid ∷ rest ∷ [])) }
{
    let (word, rest) = cut(words, b' ')?;
    Some((uid_of(word)?, rest))
}

/// Two numbers below 2^64.
fn two_numbers(words: &[u8]) -> Option<(u64, u64)>
    ensures some { IfSome result (λ x. (x.0 < 2 ^ 64) × (x.1 < 2 ^ 64) × (words.now ≡ spaced (decimal_text x.0 ∷ decimal_text x.1 ∷ []))) }
    ensures none { IfNone result ((m n : ℕ) → m < 2 ^ 64 → n < 2 ^ 64 → words.now ≢ spaced (decimal_text m ∷ decimal_text n ∷ [])) }
{
    let (first, second) = cut(words, b' ')?;
    Some((read_decimal(first)?, read_decimal(second)?))
}

/// The UID that a word names, from 1 to 4,294,967,294.
fn uid_of(word: &[u8]) -> Option<Uid>
    ensures some { IfSome result (λ uid. IsNumber uid.0 × (word.now ≡ decimal_text uid.0)) }
    ensures none { IfNone result ((uid : ℕ) → IsNumber uid → word.now ≢ decimal_text uid) }
{
    let number = u32::try_from(read_decimal(word)?).ok()?;
    is_number(number).then_some(Uid(number))
}

/// The flags whose bits a word names, 0 to 31.
fn flags_from(word: &[u8]) -> Option<Flags>
    ensures some { IfSome result (λ flags. (flags ≤ 31) × (word.now ≡ decimal_text flags)) }
    ensures none { IfNone result ((flags : ℕ) → flags ≤ 31 → word.now ≢ decimal_text flags) }
{
    let bits = u8::try_from(read_decimal(word)?).ok()?;
    flags_of(bits)
}

/// The octets of the name word in front, and what follows it. Whether they are a name isn't looked at.
fn name_octets(text: &[u8]) -> Option<(&[u8], &[u8])>
    ensures some { IfSome result (λ x. (text.now ≡ name_word x.0.now ++ x.1.now) × (length x.0.now < 2 ^ 64)) }
    ensures none { IfNone result ((name rest : List ℕ) → length name < 2 ^ 64 → text.now ≢ name_word name ++ rest) }
{
    let (digits, rest) = cut(text, b':')?;
    let length = read_decimal(digits)? as usize;
    if rest.len() < length {
        return None;
    }
    Some(rest.split_at(length))
}

/// The name that these octets are.
pub fn name_from(alloc: Global, octets: &[u8]) -> Result<Name, Flaw>
    ensures found { IfOk result (λ name. (name ≡ octets.now) × IsName octets.now) }
    ensures bad { IsErrOf result flaw.Bad → IsName octets.now → ⊥ }
    ensures memory { IsErrOf result flaw.NoMemory → IsName octets.now }
{
    match name_of(alloc, octets)? {
        Some(name) => Ok(name),
        None => Err(Flaw::Bad),
    }
}

/// The two names that these octets are. Where memory is short for the first, the second is looked at none the less.
fn names_from(alloc: Global, first: &[u8], second: &[u8]) -> Result<(Name, Name), Flaw>
    ensures found { IfOk result (λ x. (x.0 ≡ first.now) × (x.1 ≡ second.now) × IsName first.now × IsName second.now) }
    ensures bad { IsErrOf result flaw.Bad → IsName first.now → IsName second.now → ⊥ }
    ensures memory { IsErrOf result flaw.NoMemory → IsName first.now × IsName second.now }
{
    match (name_from(alloc, first), name_from(alloc, second)) {
        (Ok(name), Ok(target)) => Ok((name, target)),
        (Err(Flaw::Bad), _) | (_, Err(Flaw::Bad)) => Err(Flaw::Bad),
        _ => Err(Flaw::NoMemory),
    }
}
