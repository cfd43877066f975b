// Lines, header fields and parts of messages, and base64 text.
use crate::line_text::{push_line, push_octets};
use attach_detach::prepare;
use b64_lines::recognise;
use case_text::{Stream, Texts, push_shown};
use mdbox_base::{LineForm, NoMemory};
use mime_fields::{next_line, read_fields};
use mime_parts::leaf_parts;
use model_mime::{Coding, Kind};
use std::alloc::Global;

/// How many octets a message has at the most.
const MOST: usize = 67_108_864;

/// Where each line begins, where its text ends, and where the next one begins.
pub fn tell_lines(alloc: Global, out: &mut String, octets: &[u8]) -> Result<(), NoMemory> {
    let mut from = 0;
    for _ in 0..octets.len() {
        let Some(line) = next_line(octets, from) else {
            return Ok(());
        };
        let (start, end, next) = (line.start, line.end, line.next);
        let text = format!(in alloc; "{start}-{end} {next}")?;
        push_line(out, text.as_str())?;
        from = next;
    }
    Ok(())
}

fn name_of_coding(coding: Coding) -> &'static str {
    match coding {
        Coding::Base64 => "base64",
        Coding::Plain => "plain",
    }
}

/// What a block of header fields says: the coding, the kind, and a multipart's boundary.
pub fn tell_fields(out: &mut String, octets: &[u8]) -> Result<(), NoMemory> {
    let fields = read_fields(octets);
    let coding = name_of_coding(fields.coding);
    match &fields.kind {
        Kind::Multipart(boundary) => {
            push_line(out, coding)?;
            push_octets(out, "multipart ", boundary.as_octets())
        }
        kind => {
            push_line(out, coding)?;
            push_line(out, name_of_kind(kind))
        }
    }
}

fn name_of_kind(kind: &Kind) -> &'static str {
    match kind {
        Kind::Missing => "missing",
        Kind::Unreadable => "unreadable",
        Kind::Text => "text",
        Kind::Message => "message",
        Kind::Multipart(_) => "multipart",
        Kind::Other => "other",
    }
}

/// Where each leaf of a message begins and ends, of many the first ones and the last, and how many there are.
pub fn tell_parts(alloc: Global, out: &mut String, octets: &[u8]) -> Result<bool, NoMemory> {
    if octets.len() > MOST {
        return Ok(false);
    }
    let parts = leaf_parts(alloc, octets)?;
    let count = parts.length();
    let mut at = 0usize;
    for part in parts.as_slice() {
        at = at.saturating_add(1);
        if at <= 3 || at == count {
            let (start, end) = (part.start, part.end);
            let (coding, kept) = (
                name_of_coding(part.coding),
                if part.detachable {
                    "attachment"
                } else {
                    "kept"
                },
            );
            let text = format!(in alloc; "{start}-{end} {coding} {kept}")?;
            push_line(out, text.as_str())?;
        }
    }
    let text = format!(in alloc; "{count} leaves")?;
    push_line(out, text.as_str())?;
    Ok(true)
}

fn name_of_form(alloc: Global, form: Option<LineForm>) -> Result<String, NoMemory> {
    Ok(match form {
        Some(LineForm { length, crlf: true }) => format!(in alloc; "lines of {length} with CRLF")?,
        Some(
            LineForm {
                length,
                crlf: false,
            },
        ) => format!(in alloc; "lines of {length} with LF")?,
        None => String::from_str(alloc, "as it is")?,
    })
}

/// The form and the octets of base64 text.
pub fn tell_base64(
    alloc: Global,
    out: &mut String,
    texts: &Texts,
    octets: &[u8],
) -> Result<(), NoMemory> {
    let Some((form, decoded)) = recognise(alloc, octets)? else {
        return push_line(out, "none");
    };
    let form = name_of_form(alloc, Some(form))?;
    push_line(out, form.as_str())?;
    push_shown(out, texts, Stream::Output, decoded.as_slice())
}

/// What is stored of a message: the size of its body, its own sizes, and each attachment that is taken out.
pub fn tell_prepared(
    alloc: Global,
    out: &mut String,
    texts: &Texts,
    octets: &[u8],
) -> Result<bool, NoMemory> {
    if octets.len() > MOST {
        return Ok(false);
    }
    let prepared = prepare(alloc, octets)?;
    let (body, whole) = (prepared.body.length(), prepared.whole);
    let virtual_size = prepared.virtual_size;
    let text = format!(in alloc; "body {body}, whole {whole}, with CRLF {virtual_size}")?;
    push_line(out, text.as_str())?;
    for part in prepared.parts.as_slice() {
        let (start, count) = (part.start, part.count);
        let form = name_of_form(alloc, part.form)?;
        let form = form.as_str();
        let text = format!(in alloc; "{count} octets at {start}, {form}")?;
        push_line(out, text.as_str())?;
        push_octets(out, "SHA-1 ", &part.hash.0)?;
        push_shown(out, texts, Stream::Output, part.octets.as_slice())?;
    }
    Ok(true)
}
