// The steps of the list machine, one after another.
use crate::line_text::{push_digits, push_line};
use mdbox_base::{
    BoxNo, Flags, Guid, ListRow, Name, NoMemory, Octets, Refusal, Reply, Seq, Uid, Words, flags_of,
    name_of, words_of,
};
use plain_lists::{PlainLists, PlainMailbox, PlainMessage};
use std::alloc::Global;

const GUID: Guid = Guid(*b"\x00\x11\x22\x33\x44\x55\x66\x77\0\0\0\x01\0\0\0\x10");

/// How many octets a message has at most.
const MOST: usize = 67_108_864;

/// Lists of an INBOX with one message of these octets, UID 1, no flags, received at 1,694,498,816. None if there are too many.
pub fn with_message(alloc: Global, octets: &[u8]) -> Result<Option<PlainLists>, NoMemory> {
    if octets.len() > MOST {
        return Ok(None);
    }
    let (Some(flags), Some(name)) = (flags_of(0), name_of(alloc, b"INBOX")?) else {
        return Ok(None);
    };
    let message = PlainMessage {
        uid: Uid(1),
        flags,
        time: 1_694_498_816,
        guid: GUID,
        octets: Octets::of(Vec::from_slice(alloc, octets)?),
        words: Words::none(alloc),
    };
    let inbox = PlainMailbox {
        number: BoxNo(1),
        name,
        next_uid: 2,
        messages: vec![in alloc; message]?,
    };
    Ok(Some(PlainLists::of(vec![in alloc; inbox]?, 1)))
}

/// Does a step, and tells its reply. False if it isn't written as it is to be.
pub fn step(
    alloc: Global,
    lists: &mut PlainLists,
    out: &mut String,
    line: &str,
) -> Result<bool, NoMemory> {
    let (word, line) = line.split_once(' ').unwrap_or((line, ""));
    let reply = match word {
        "moved" => of_number(lists, line),
        _ => of_name(alloc, lists, word, line)?,
    };
    match reply {
        Some(reply) => {
            push_reply(alloc, out, &reply)?;
            Ok(true)
        }
        None => Ok(false),
    }
}

/// The second half of a move: the number of its mailbox, its UID and that of its copy. None if it isn't written as it is to be.
fn of_number(lists: &mut PlainLists, line: &str) -> Option<Reply> {
    let (source, line) = line.split_once(' ')?;
    let (uid, copied) = line.split_once(' ')?;
    let source = source.parse::<u32>().ok()?;
    let uid = uid.parse::<u32>().ok()?;
    let copied = copied.parse::<u32>().ok()?;
    Some(lists.second_half(BoxNo(source), Uid(uid), Uid(copied)))
}

/// A step that names a mailbox. None if it isn't written as it is to be.
fn of_name(
    alloc: Global,
    lists: &mut PlainLists,
    word: &str,
    line: &str,
) -> Result<Option<Reply>, NoMemory> {
    let (name, line) = line.split_once(' ').unwrap_or((line, ""));
    let Some(name) = name_of(alloc, name.as_bytes())? else {
        return Ok(None);
    };
    match word {
        "make" => Ok(Some(lists.make(alloc, name)?)),
        "list" => Ok(Some(lists.list(alloc, &name)?)),
        "delete" => Ok(Some(lists.delete(&name))),
        "rename" => match name_of(alloc, line.as_bytes())? {
            Some(target) => Ok(Some(lists.rename(&name, target))),
            None => Ok(None),
        },
        _ => of_message(alloc, lists, word, &name, line),
    }
}

/// A step that names a message. None if it isn't written as it is to be.
fn of_message(
    alloc: Global,
    lists: &mut PlainLists,
    word: &str,
    name: &Name,
    line: &str,
) -> Result<Option<Reply>, NoMemory> {
    let (uid, line) = line.split_once(' ').unwrap_or((line, ""));
    let Ok(uid) = uid.parse::<u32>() else {
        return Ok(None);
    };
    match word {
        "expunge" => Ok(Some(lists.expunge(name, Uid(uid)))),
        "flag" => {
            let Some(flags) = flags_in(line) else {
                return Ok(None);
            };
            Ok(Some(lists.flag(name, Uid(uid), flags)))
        }
        "keywords" => match words_in(alloc, line)? {
            Some(words) => Ok(Some(lists.keywords(name, Uid(uid), words))),
            None => Ok(None),
        },
        _ => to_target(alloc, lists, word, name, Uid(uid), line),
    }
}

/// The flags that a decimal number says.
fn flags_in(line: &str) -> Option<Flags> {
    match line.parse::<u8>() {
        Ok(bits) => flags_of(bits),
        Err(_) => None,
    }
}

/// The keywords of a line, which may be empty. None if its words aren't keywords.
fn words_in(alloc: Global, line: &str) -> Result<Option<Words>, NoMemory> {
    let mut texts = Seq::empty(alloc);
    if !line.is_empty() {
        for word in line.split(' ') {
            texts.push(Octets::of(Vec::from_slice(alloc, word.as_bytes())?))?;
        }
    }
    words_of(alloc, &texts)
}

/// A step that names a target too.
fn to_target(
    alloc: Global,
    lists: &mut PlainLists,
    word: &str,
    name: &Name,
    uid: Uid,
    line: &str,
) -> Result<Option<Reply>, NoMemory> {
    let Some(target) = name_of(alloc, line.as_bytes())? else {
        return Ok(None);
    };
    match word {
        "copy" => Ok(Some(lists.copy(alloc, name, uid, &target)?)),
        _ => Ok(None),
    }
}

fn push_reply(alloc: Global, out: &mut String, reply: &Reply) -> Result<(), NoMemory> {
    match reply {
        Reply::Done => push_line(out, "OK"),
        Reply::Copied { uid } => {
            let uid = uid.0;
            let text = format!(in alloc; "OK {uid}")?;
            push_line(out, text.as_str())
        }
        Reply::Moved { uid, gone } => {
            let (uid, gone) = (uid.0, if *gone { " GONE" } else { "" });
            let text = format!(in alloc; "OK {uid}{gone}")?;
            push_line(out, text.as_str())
        }
        Reply::Listed(rows) => {
            for row in rows.as_slice() {
                push_row(alloc, out, row)?;
            }
            let count = rows.length();
            let text = format!(in alloc; "{count} messages")?;
            push_line(out, text.as_str())
        }
        Reply::Refused(refusal) => push_line(out, name_of_refusal(*refusal)),
        _ => push_line(out, "another reply"),
    }
}

fn push_row(alloc: Global, out: &mut String, row: &ListRow) -> Result<(), NoMemory> {
    let (uid, flags) = (row.uid.0, row.flags.bits());
    let (size, time) = (row.size, row.time);
    let mut text = format!(in alloc; "{uid} {flags} {size} {time} ")?;
    push_digits(&mut text, &row.guid.0)?;
    for word in row.words.as_slice() {
        text.push_str(" ")?;
        for octet in word.as_slice() {
            text.push(char::from(*octet))?;
        }
    }
    push_line(out, text.as_str())
}

fn name_of_refusal(refusal: Refusal) -> &'static str {
    match refusal {
        Refusal::NoMailbox => "NO no mailbox",
        Refusal::Inbox => "NO inbox",
        Refusal::Exists => "NO exists",
        Refusal::NoMessage => "NO no message",
        _ => "NO another refusal",
    }
}
