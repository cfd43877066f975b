// Scripts, and replies as they are printed.
use crate::line_text::push_line;
use case_text::{Stream, Texts, push_shown};
use mdbox_base::{NoMemory, Octets, Reply, Uid};
use request_text::{Places, push_reply};
use script_text::{ScriptError, exercise_script, made_scripts_fit, push_script, read_script};
use std::alloc::Global;

/// The script for so many lanes that octets are, as it is written again: the number of lanes and the name of the octets.
/// Or the offset where they go wrong.
pub fn tell_script(
    alloc: Global,
    out: &mut String,
    texts: &Texts,
    line: &str,
) -> Result<bool, NoMemory> {
    let (lanes, name) = line.split_once(' ').unwrap_or((line, ""));
    let (Ok(lanes), Some(octets)) = (lanes.parse::<u32>(), texts.find(name)) else {
        return Ok(false);
    };
    let script = match read_script(alloc, octets, lanes) {
        Ok(script) => script,
        Err(ScriptError::NoMemory) => return Err(NoMemory),
        Err(ScriptError::Bad(offset)) => {
            let text = format!(in alloc; "no request at {offset}")?;
            push_line(out, text.as_str())?;
            return Ok(true);
        }
    };
    let count = script.requests.length();
    let mut again = Octets::empty(alloc);
    push_script(alloc, &mut again, &script)?;
    let same = if again.as_slice() == octets {
        "written again"
    } else {
        "written otherwise"
    };
    let text = format!(in alloc; "{count} requests, {same}")?;
    push_line(out, text.as_str())?;
    Ok(true)
}

/// The text of the script of so many lanes and requests that a number makes.
pub fn tell_exercise(
    alloc: Global,
    out: &mut String,
    texts: &Texts,
    line: &str,
) -> Result<bool, NoMemory> {
    let Some((lanes, count, number)) = three_numbers(line) else {
        return Ok(false);
    };
    if lanes == 0 || lanes > 64 || count == 0 || count > 100_000 {
        return Ok(false);
    }
    let script = exercise_script(alloc, lanes as u32, count as u32, number)?;
    made_scripts_fit();
    let mut text = Octets::empty(alloc);
    push_script(alloc, &mut text, &script)?;
    push_shown(out, texts, Stream::Output, text.as_slice())?;
    Ok(true)
}

/// The printed reply to a move of a script, to UID 1: the request's number, and the places of its copy and its expunge.
pub fn tell_moved(
    alloc: Global,
    out: &mut String,
    texts: &Texts,
    line: &str,
    gone: bool,
) -> Result<bool, NoMemory> {
    let Some((number, copied, removed)) = three_numbers(line) else {
        return Ok(false);
    };
    let Ok(number) = u32::try_from(number) else {
        return Ok(false);
    };
    let places = Places::Two(Some(copied), Some(removed));
    let reply = Reply::Moved { uid: Uid(1), gone };
    let mut text = Octets::empty(alloc);
    push_reply(alloc, &mut text, number, places, &reply)?;
    push_shown(out, texts, Stream::Output, text.as_slice())?;
    Ok(true)
}

/// Three numbers with a space between any two.
fn three_numbers(line: &str) -> Option<(u64, u64, u64)> {
    let (first, rest) = line.split_once(' ')?;
    let (second, third) = rest.split_once(' ')?;
    Some((
        first.parse::<u64>().ok()?,
        second.parse::<u64>().ok()?,
        third.parse::<u64>().ok()?,
    ))
}
