// One request of a script, read.
ghost use Rattle.std.specs.Prelude.{◌≡◌, ◌≢◌, ◌≤◌, ◌++◌, ◌∷◌, [], ℕ, List, length, IfOk, IfSome, IfNone, IsErrOf, codes};
ghost use Rattle.mdbox_base.specs.Numbers.{decimal_text};
ghost use Rattle.script_text.specs.Script.{FitsLanes, FitsScript, BeginsNoRequest, BeginsRequest, request_text, request_words, spaced};
ghost use Rattle.script_text.specs.Reading.{IsRequestOf, AsksNothing, AsksSomething, IsOneWord, verb_text};
ghost use Rattle.script_text.specs.declared.error.Flaw.TheVariants as flaw;
ghost use Rattle.mdbox_base.specs.declared.requests.Request.{Request};

use crate::arguments::{
    name_alone, name_and_name, name_and_uid, name_from, name_uid_flags, name_uid_name,
    name_uid_words, octets_time_size,
};
use crate::cut::cut;
use crate::error::Flaw;
use crate::verb::{Verb, verb_of};
use mdbox_base::{Octets, Request, read_decimal};
use std::alloc::Global;

/// How many octets a message has at most.
pub const MOST_OCTETS: u64 = 67_108_864;

/// The request in front of a text, with its lane, and what follows it.
pub fn request_at(alloc: Global, text: &[u8], lanes: u32) -> Result<((u32, Request), &[u8]), Flaw>
    ensures found { IfOk result (λ x. FitsLanes lanes x.0 × (text.now ≡ request_text x.0 ++ x.1.now)) }
    ensures bad { IsErrOf result flaw.Bad → BeginsNoRequest lanes text.now }
    ensures memory { IsErrOf result flaw.NoMemory → BeginsRequest lanes text.now }
{
    let Some((line, rest)) = cut(text, b'\n') else {
        return Err(Flaw::Bad);
    };
    let Some((lane, words)) = lane_and_words(line, lanes) else {
        return Err(Flaw::Bad);
    };
    let (asked, rest) = asked_at(alloc, words, rest)?;
    Ok(((lane, asked), rest))
}

/// The lane in front of a line, 1 to so many, and the words that follow it.
pub fn lane_and_words(line: &[u8], lanes: u32) -> Option<(u32, &[u8])>
    ensures some { IfSome result (λ x. (1 ≤ x.0) × (x.0 ≤ lanes) × (line.now ≡ decimal_text x.0 ++ 32 ∷ x.1.now)) }
    ensures none { IfNone result ((lane : ℕ) (words : List ℕ) → 1 ≤ lane → lane ≤ lanes → line.now ≢ decimal_text lane ++ 32 ∷ words) }
{
    let (word, words) = cut(line, b' ')?;
    let lane = u32::try_from(read_decimal(word)?).ok()?;
    if lane == 0 || lane > lanes {
        return None;
    }
    Some((lane, words))
}

/// The request that these words and what follows their line are, and what follows it.
pub fn asked_at<'a>(
    alloc: Global,
    words: &[u8],
    rest: &'a [u8],
) -> Result<(Request, &'a [u8]), Flaw>
    ensures found { IfOk result (λ x. IsRequestOf words.now rest.now x.0 x.1.now) }
    ensures bad { IsErrOf result flaw.Bad → AsksNothing words.now rest.now }
    ensures memory { IsErrOf result flaw.NoMemory → AsksSomething words.now rest.now }
{
    let Some((word, arguments)) = cut(words, b' ') else {
        return match asked_alone(words) {
            Some(asked) => Ok((asked, rest)),
            None => Err(Flaw::Bad),
        };
    };
    match verb_of(word) {
        Some(verb) => asked_with(alloc, verb, arguments, rest),
        None => Err(Flaw::Bad),
    }
}

/// The request that one word is.
fn asked_alone(word: &[u8]) -> Option<Request>
    ensures some { IfSome result (λ asked. (word.now ≡ spaced (request_words asked)) × IsOneWord asked) }
    ensures none { IfNone result ((asked : Request) → IsOneWord asked → word.now ≢ spaced (request_words asked)) }
{
    match word {
        b"counts" => Some(Request::Counts),
        b"purge" => Some(Request::Purge),
        b"resync" => Some(Request::Resync),
        _ => None,
    }
}

/// The request with this verb and these arguments, whose message, if it is a delivery, follows the line.
fn asked_with<'a>(
    alloc: Global,
    verb: Verb,
    arguments: &[u8],
    rest: &'a [u8],
) -> Result<(Request, &'a [u8]), Flaw>
    ensures found { IfOk result (λ x. IsRequestOf (verb_text verb ++ 32 ∷ arguments.now) rest.now x.0 x.1.now) }
    ensures bad { IsErrOf result flaw.Bad → AsksNothing (verb_text verb ++ 32 ∷ arguments.now) rest.now }
    ensures memory { IsErrOf result flaw.NoMemory → AsksSomething (verb_text verb ++ 32 ∷ arguments.now) rest.now }
{
    match verb {
        Verb::Deliver => delivery_at(alloc, arguments, rest),
        Verb::List => {
            let name = name_alone(alloc, arguments)?;
            Ok((Request::List { name }, rest))
        }
        Verb::Fetch => {
            let (name, uid) = name_and_uid(alloc, arguments)?;
            Ok((Request::Fetch { name, uid }, rest))
        }
        Verb::Flag => {
            let (name, uid, flags) = name_uid_flags(alloc, arguments)?;
            Ok((Request::Flag { name, uid, flags }, rest))
        }
        Verb::Keywords => {
            let (name, uid, words) = name_uid_words(alloc, arguments)?;
            Ok((Request::Keywords { name, uid, words }, rest))
        }
        Verb::Copy => {
            let (name, uid, target) = name_uid_name(alloc, arguments)?;
            Ok((Request::Copy { name, uid, target }, rest))
        }
        Verb::Move => {
            let (name, uid, target) = name_uid_name(alloc, arguments)?;
            Ok((Request::Move { name, uid, target }, rest))
        }
        Verb::Expunge => {
            let (name, uid) = name_and_uid(alloc, arguments)?;
            Ok((Request::Expunge { name, uid }, rest))
        }
        Verb::Make => {
            let name = name_alone(alloc, arguments)?;
            Ok((Request::Make { name }, rest))
        }
        Verb::Delete => {
            let name = name_alone(alloc, arguments)?;
            Ok((Request::Delete { name }, rest))
        }
        Verb::Rename => {
            let (name, target) = name_and_name(alloc, arguments)?;
            Ok((Request::Rename { name, target }, rest))
        }
    }
}

/// The delivery with these arguments, whose message and LF follow the line.
fn delivery_at<'a>(
    alloc: Global,
    arguments: &[u8],
    rest: &'a [u8],
) -> Result<(Request, &'a [u8]), Flaw>
    ensures found { IfOk result (λ x. IsRequestOf (codes "deliver" ++ 32 ∷ arguments.now) rest.now x.0 x.1.now) }
    ensures bad { IsErrOf result flaw.Bad → AsksNothing (codes "deliver" ++ 32 ∷ arguments.now) rest.now }
    ensures memory { IsErrOf result flaw.NoMemory → AsksSomething (codes "deliver" ++ 32 ∷ arguments.now) rest.now }
{
    let Some((origin, time, size)) = octets_time_size(arguments) else {
        return Err(Flaw::Bad);
    };
    let Some((octets, rest)) = message_at(rest, size) else {
        return Err(Flaw::Bad);
    };
    let name = name_from(alloc, origin)?;
    let mut message = Octets::empty(alloc);
    message.push_all(octets)?;
    Ok((
        Request::Deliver {
            name,
            time,
            message,
        },
        rest,
    ))
}

/// The message of so many octets in front, which LF follows, and what follows that.
fn message_at(text: &[u8], size: u64) -> Option<(&[u8], &[u8])>
    ensures some { IfSome result (λ x. (length x.0.now ≡ size) × (size ≤ 67108864) × (text.now ≡ (x.0.now ++ 10 ∷ []) ++ x.1.now)) }
    ensures none { IfNone result ((message rest : List ℕ) → length message ≡ size → size ≤ 67108864 → text.now ≢ (message ++ 10 ∷ []) ++ rest) }
{
    if size > MOST_OCTETS || (text.len() as u64) <= size {
        return None;
    }
    match text.split_at(size as usize) {
        (message, [b'\n', rest @ ..]) => Some((message, rest)),
        _ => None,
    }
}
