// Bodies that are put together again.
use crate::line_text::push_line;
use attach_join::rejoin;
use case_text::{Stream, Texts, push_shown};
use dbox_metadata::read_refs;
use mdbox_base::{NoMemory, Octets, Seq};
use model_attach::JoinError;
use std::alloc::Global;

/// The whole of a body: its size, the name of the references' text, that of the body, and that of each instance.
pub fn tell_rejoined(
    alloc: Global,
    out: &mut String,
    texts: &Texts,
    line: &str,
) -> Result<bool, NoMemory> {
    let (whole, line) = line.split_once(' ').unwrap_or((line, ""));
    let (refs, line) = line.split_once(' ').unwrap_or((line, ""));
    let (body, line) = line.split_once(' ').unwrap_or((line, ""));
    let (Ok(whole), Some(refs), Some(body)) = (
        whole.parse::<u64>(),
        texts.find(refs),
        texts.find(body),
    ) else {
        return Ok(false);
    };
    let Some(refs) = read_refs(alloc, refs)? else {
        return Ok(false);
    };
    let mut instances = Seq::empty(alloc);
    for name in line.split(' ') {
        let Some(octets) = texts.find(name) else {
            return Ok(false);
        };
        instances.push(Octets::of(Vec::from_slice(alloc, octets)?))?;
    }
    if refs.length() != instances.length() || refs.length() > 10_000 {
        return Ok(false);
    }
    match rejoin(alloc, body, whole, &refs, &instances) {
        Ok(octets) => push_shown(out, texts, Stream::Output, octets.as_slice())?,
        Err(JoinError::NoMemory) => return Err(NoMemory),
        Err(error) => {
            let text = format!(in alloc; "{error}")?;
            push_line(out, text.as_str())?;
        }
    }
    Ok(true)
}
