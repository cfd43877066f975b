// A script, written.
ghost use Rattle.std.specs.Prelude.{◌≡◌, ◌++◌, ◌∷◌, length, OnOk, OnErr};
ghost use Rattle.mdbox_base.specs.Numbers.{decimal_text};
ghost use Rattle.script_text.specs.Script.{IsForLanes, script_text, request_text, request_words, message_text, name_word, spaced};

use mdbox_base::{Name, NoMemory, Octets, Request, Script, Uid, push_decimal};
use std::alloc::Global;

/// Appends the text of a script, which is read as this script again. Without memory nothing is appended.
pub fn push_script(alloc: Global, out: &mut Octets, script: &Script) -> Result<(), NoMemory>
    requires { IsForLanes script.now }
    ensures ok { OnOk result (out.new ≡ out.old ++ script_text script.now.requests) }
    ensures err { OnErr result (out.new ≡ out.old) }
{
    let mut text = Octets::empty(alloc);
    push_requests(&mut text, script.requests.as_slice())?;
    out.push_all(text.as_slice())
}

/// Appends requests with their lanes.
fn push_requests(text: &mut Octets, requests: &[(u32, Request)]) -> Result<(), NoMemory>
    ensures { OnOk result (text.new ≡ text.old ++ script_text requests.now) }
{
    for (lane, asked) in requests {
        push_request(text, *lane, asked)?;
    }
    Ok(())
}

/// Appends a request with its lane.
fn push_request(text: &mut Octets, lane: u32, asked: &Request) -> Result<(), NoMemory>
    ensures { OnOk result (text.new ≡ text.old ++ request_text (lane, asked.now)) }
{
    push_decimal(text, lane as u64)?;
    text.push_all(b" ")?;
    push_words(text, asked)?;
    text.push_all(b"\n")?;
    push_message(text, asked)
}

/// Appends the words of a request.
fn push_words(text: &mut Octets, asked: &Request) -> Result<(), NoMemory>
    ensures { OnOk result (text.new ≡ text.old ++ spaced (request_words asked.now)) }
{
    match asked {
        Request::Deliver {
            name,
            time,
            message,
        } => {
            push_name(text, b"deliver ", name)?;
            push_number(text, *time)?;
            push_number(text, message.length() as u64)
        }
        Request::List { name } => push_name(text, b"list ", name),
        Request::Fetch { name, uid } => {
            push_name(text, b"fetch ", name)?;
            push_number(text, uid.0 as u64)
        }
        Request::Flag { name, uid, flags } => {
            push_name(text, b"flag ", name)?;
            push_number(text, uid.0 as u64)?;
            push_number(text, flags.bits() as u64)
        }
        Request::Keywords { name, uid, words } => {
            push_name(text, b"keywords ", name)?;
            push_number(text, uid.0 as u64)?;
            push_keywords(text, words.as_slice())
        }
        Request::Copy { name, uid, target } => push_names(text, b"copy ", name, *uid, target),
        Request::Move { name, uid, target } => push_names(text, b"move ", name, *uid, target),
        Request::Expunge { name, uid } => {
            push_name(text, b"expunge ", name)?;
            push_number(text, uid.0 as u64)
        }
        Request::Make { name } => push_name(text, b"make ", name),
        Request::Delete { name } => push_name(text, b"delete ", name),
        Request::Rename { name, target } => {
            push_name(text, b"rename ", name)?;
            push_name(text, b" ", target)
        }
        Request::Counts => text.push_all(b"counts"),
        Request::Purge => text.push_all(b"purge"),
        Request::Resync => text.push_all(b"resync"),
    }
}

/// Appends the message of a delivery, and LF.
fn push_message(text: &mut Octets, asked: &Request) -> Result<(), NoMemory>
    ensures { OnOk result (text.new ≡ text.old ++ message_text asked.now) }
{
    if let Request::Deliver { message, .. } = asked {
        text.push_all(message.as_slice())?;
        text.push_all(b"\n")?;
    }
    Ok(())
}

/// Appends words and, behind them, a name.
fn push_name(text: &mut Octets, before: &[u8], name: &Name) -> Result<(), NoMemory>
    ensures { OnOk result (text.new ≡ text.old ++ (before.now ++ name_word name.now)) }
{
    let octets = name.as_octets();
    text.push_all(before)?;
    push_decimal(text, octets.len() as u64)?;
    text.push_all(b":")?;
    text.push_all(octets)
}

/// Appends a space and a number.
fn push_number(text: &mut Octets, number: u64) -> Result<(), NoMemory>
    ensures { OnOk result (text.new ≡ text.old ++ 32 ∷ decimal_text number) }
{
    text.push_all(b" ")?;
    push_decimal(text, number)
}

/// Appends a space and how many keywords there are, and each after one space.
fn push_keywords(text: &mut Octets, words: &[Octets]) -> Result<(), NoMemory>
    ensures { OnOk result (text.new ≡ text.old ++ 32 ∷ spaced (decimal_text (length words.now) ∷ words.now)) }
{
    push_number(text, words.len() as u64)?;
    for word in words {
        text.push_all(b" ")?;
        text.push_all(word.as_slice())?;
    }
    Ok(())
}

/// Appends words and, behind them, a name, a UID and another name.
fn push_names(
    text: &mut Octets,
    before: &[u8],
    name: &Name,
    uid: Uid,
    target: &Name,
) -> Result<(), NoMemory>
    ensures { OnOk result (text.new ≡ text.old ++ (before.now ++ (name_word name.now ++ 32 ∷ (decimal_text uid.0 ++ 32 ∷ name_word target.now)))) }
{
    push_name(text, before, name)?;
    push_number(text, uid.0 as u64)?;
    push_name(text, b" ", target)
}
