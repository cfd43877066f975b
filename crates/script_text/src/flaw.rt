// Where a text that is no script goes wrong, and what is missing there.
ghost use Rattle.std.specs.Prelude.{◌≡◌, ◌+◌, ◌∷◌, ◌++◌, ◌↔◌, ℕ, List, nat_eq, IsTrue, IsErrOf, IfOk, OnOk};
ghost use Rattle.std.specs.List.{count_by};
ghost use Rattle.mdbox_base.specs.declared.requests.Request.{Request};
ghost use Rattle.script_text.specs.Flaws.{IsFlawOf, IsNeeded};
ghost use Rattle.script_text.specs.Reading.{AreDelivery, AsksNothing, BeginsVerb, IsRequestOf, IsWordsOrMessage};
ghost use Rattle.script_text.specs.Script.{IsBadAt};
ghost use Rattle.script_text.specs.declared.error.Flaw.TheVariants as flaw;

use crate::arguments::name_time_size;
use crate::cut::cut;
use crate::error::Flaw;
use crate::request::{MOST_OCTETS, asked_at, lane_and_words};
use mdbox_base::NoMemory;
use std::alloc::Global;

/// What is missing first where a request should begin.
#[derive(Clone, Copy, Debug, PartialEq, Eq)]
pub enum Need {
    /// A lane, and a space.
    Lane,
    /// A verb.
    Verb,
    /// The words that the verb wants, and LF.
    Words,
    /// As many octets as the delivery says, and LF.
    Message,
    /// Nothing: it is a request, but the 100,001st.
    Fewer,
}

/// Where a text goes wrong.
#[derive(Clone, Copy, Debug, PartialEq, Eq)]
pub struct ScriptFlaw {
    /// Where the first request begins that isn't one, or the 100,001st.
    pub offset: u64,
    /// The number of the line that begins there, from 1.
    pub line: u64,
    /// What is missing there.
    pub need: Need,
}

/// What is to be told of a text that goes wrong at this offset.
pub fn flaw_at(alloc: Global, text: &[u8], lanes: u32, offset: u64) -> Result<ScriptFlaw, NoMemory>
    requires { IsBadAt lanes text.now offset }
    ensures { IfOk result (IsFlawOf lanes text.now) }
{
    let (before, rest) = text.split_at(offset as usize);
    Ok(ScriptFlaw {
        offset,
        line: line_after(before),
        need: need_of(alloc, rest, lanes)?,
    })
}

/// The number of the line that goes on after these octets.
pub(crate) fn line_after(before: &[u8]) -> u64
    ensures { result ≡ 1 + count_by (λ octet. nat_eq octet 10) before.now }
{
    let mut line = 1;
    for octet in before {
        if *octet == b'\n' {
            line += 1;
        }
    }
    line
}

/// What is missing first where this text begins.
pub(crate) fn need_of(alloc: Global, text: &[u8], lanes: u32) -> Result<Need, NoMemory>
    ensures { IfOk result (IsNeeded lanes text.now) }
{
    let Some((_, words)) = lane_and_words(text, lanes) else {
        return Ok(Need::Lane);
    };
    if !begins_verb(words) {
        return Ok(Need::Verb);
    }
    let Some((words, rest)) = cut(words, b'\n') else {
        return Ok(Need::Words);
    };
    match asks(alloc, words, rest) {
        Ok(()) => Ok(Need::Fewer),
        Err(Flaw::Bad) => need_after(alloc, words),
        Err(Flaw::NoMemory) => Err(NoMemory),
    }
}

/// What is missing of words that with what follows their line are no request, though a verb is there.
fn need_after(alloc: Global, words: &[u8]) -> Result<Need, NoMemory>
    ensures { IfOk result (IsWordsOrMessage words.now) }
{
    match delivers(alloc, words) {
        Ok(()) => Ok(Need::Message),
        Err(Flaw::Bad) => Ok(Need::Words),
        Err(Flaw::NoMemory) => Err(NoMemory),
    }
}

/// Whether the verb of a request begins a text.
fn begins_verb(text: &[u8]) -> bool
    ensures { IsTrue result ↔ BeginsVerb text.now }
{
    if begins(text, b"deliver") {
        return true;
    }
    if begins(text, b"list") {
        return true;
    }
    if begins(text, b"fetch") {
        return true;
    }
    if begins(text, b"flag") {
        return true;
    }
    if begins(text, b"copy") {
        return true;
    }
    if begins(text, b"move") {
        return true;
    }
    if begins(text, b"expunge") {
        return true;
    }
    if begins(text, b"make") {
        return true;
    }
    if begins(text, b"delete") {
        return true;
    }
    if begins(text, b"rename") {
        return true;
    }
    if begins(text, b"counts") {
        return true;
    }
    if begins(text, b"purge") {
        return true;
    }
    if begins(text, b"keywords") {
        return true;
    }
    begins(text, b"resync")
}

/// Whether a word begins a text.
fn begins(text: &[u8], word: &[u8]) -> bool
    ensures { IsTrue result ↔ ((after : List ℕ) × (text.now ≡ word.now ++ after)) }
{
    text.starts_with(word)
}

/// Looks whether words and what follows their line are a request.
fn asks(alloc: Global, words: &[u8], rest: &[u8]) -> Result<(), Flaw>
    ensures found { OnOk result ((asked : Request) × (after : List ℕ) × IsRequestOf words.now rest.now asked after) }
    ensures bad { IsErrOf result flaw.Bad → AsksNothing words.now rest.now }
{
    let _asked = asked_at(alloc, words, rest)?;
    Ok(())
}

/// Looks whether words are those of a delivery, without the lane.
fn delivers(alloc: Global, words: &[u8]) -> Result<(), Flaw>
    ensures found { OnOk result (AreDelivery words.now) }
    ensures bad { IsErrOf result flaw.Bad → AreDelivery words.now → ⊥ }
{
    let Some(arguments) = words.strip_prefix(b"deliver ") else {
        return Err(Flaw::Bad);
    };
    let (_name, _time, size) = name_time_size(alloc, arguments)?;
    if size > MOST_OCTETS {
        return Err(Flaw::Bad);
    }
    Ok(())
}
