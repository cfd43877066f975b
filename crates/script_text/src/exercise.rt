// The script that a number makes.
ghost use Rattle.std.specs.Prelude.{◌≡◌, ◌≤◌, ◌<◌, ◌+◌, ◌*◌, ◌/◌, ◌%◌, ◌++◌, map, IfOk, IsSome};
ghost use Rattle.script_text.specs.MadeScript.{made_script, made_request, made_round, made_turn, made_message, made_octet, lane_name, below};

use mdbox_base::{
    Flags, Name, NoMemory, Octets, Request, Script, Seq, Uid, flags_of, name_of, push_decimal,
};
use std::alloc::Global;

/// The script of so many requests for so many lanes that a number makes: each lane makes a mailbox, and then again and again
/// delivers a message, copies it, expunges it, and sets the flags of the copy.
pub fn exercise_script(
    alloc: Global,
    lanes: u32,
    count: u32,
    number: u64,
) -> Result<Script, NoMemory>
    requires one { 1 ≤ lanes }
    requires most { lanes ≤ 64 }
    requires some { 1 ≤ count }
    requires few { count ≤ 100000 }
    ensures { IfOk result (λ script. script ≡ made_script lanes count number) }
{
    let mut requests = Seq::empty(alloc);
    for i in 0..count {
        let lane = i % lanes + 1;
        requests.push((lane, round_request(alloc, number, i, lane, i / lanes)?))?;
    }
    Ok(Script { lanes, requests })
}

/// What a lane asks for in a round of the lanes, as request i.
fn round_request(
    alloc: Global,
    number: u64,
    i: u32,
    lane: u32,
    round: u32,
) -> Result<Request, NoMemory>
    requires few { i < 100000 }
    requires round { round ≤ i }
    requires lane { lane ≤ 64 }
    ensures { IfOk result (λ asked. asked ≡ made_round number i lane round) }
{
    let name = lane_mailbox(alloc, lane)?;
    let Some(turn) = round.checked_sub(1) else {
        return Ok(Request::Make { name });
    };
    let first = Uid(turn / 4 * 2 + 1);
    match turn % 4 {
        0 => {
            let size = ((number % 1000) as u32 + i) % 1000;
            let message = message_of(alloc, size)?;
            let time = i as u64;
            Ok(Request::Deliver {
                name,
                time,
                message,
            })
        }
        1 => {
            let target = lane_mailbox(alloc, lane)?;
            Ok(Request::Copy {
                name,
                uid: first,
                target,
            })
        }
        2 => Ok(Request::Expunge { name, uid: first }),
        _ => Ok(Request::Flag {
            name,
            uid: Uid(first.0 + 1),
            flags: seen(),
        }),
    }
}

/// The flag of a message that was seen.
fn seen() -> Flags
    ensures { result ≡ 8 }
{
    match flags_of(8) {
        Some(flags) => flags,
        None => unreachable!(),
    }
}

/// The name of a lane's mailbox.
#[tactic(auto, using(crate::proofs::MadeLemmas::lane_is_name))]
fn lane_mailbox(alloc: Global, lane: u32) -> Result<Name, NoMemory>
    ensures { IfOk result (λ name. name ≡ lane_name lane) }
{
    let mut text = Octets::empty(alloc);
    text.push_all(b"x")?;
    push_decimal(&mut text, lane as u64)?;
    match name_of(alloc, text.as_slice())? {
        Some(name) => Ok(name),
        None => unreachable!(),
    }
}

/// The message of so many octets.
fn message_of(alloc: Global, size: u32) -> Result<Octets, NoMemory>
    requires { size < 1000 }
    ensures { IfOk result (λ message. message ≡ made_message size) }
{
    let mut message = Octets::empty(alloc);
    for place in 0..size {
        message.push_all(&[octet_at(size, place)])?;
    }
    Ok(message)
}

/// The octet at a place of the message of so many octets.
fn octet_at(size: u32, place: u32) -> u8
    requires size { size < 1000 }
    requires place { place < size }
    ensures { result ≡ made_octet size place }
{
    if place % 64 == 63 {
        b'\n'
    } else {
        b'a' + ((size + place) % 26) as u8
    }
}
