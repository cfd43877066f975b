// Base64 text, written line by line.
ghost use Rattle.std.specs.Prelude.{◌≡◌, ◌≤◌, ◌++◌, ℕ, List, length, IfOk, OnOk, OnErr};
ghost use Rattle.model_base64.specs.Base64Text.{IsForm, line_break, padded, text_of};

use crate::size::text_size;
use base64::engine::general_purpose::STANDARD;
use mdbox_base::{LineForm, NoMemory, Octets};
use std::alloc::Global;

/// The text of a form and octets.
pub fn write_lines(alloc: Global, form: LineForm, octets: &[u8]) -> Result<Octets, NoMemory>
    requires { IsForm form }
    ensures { IfOk result (λ text. text ≡ text_of form octets.now) }
{
    let mut out = Vec::with_capacity(alloc, room_for(form, octets))?;
    push_lines(&mut out, form, octets)?;
    Ok(Octets::of(out))
}

/// Adds the text of a form and octets at the end. Without memory nothing is added.
pub fn push_lines(out: &mut Vec<u8>, form: LineForm, octets: &[u8]) -> Result<(), NoMemory>
    requires { IsForm form }
    ensures ok { OnOk result (out.new.items ≡ out.old.items ++ text_of form octets.now) }
    ensures err { OnErr result (out.new.items ≡ out.old.items) }
{
    let before = out.len();
    match push_each(out, form, octets) {
        Ok(()) => Ok(()),
        Err(error) => {
            out.truncate(before);
            Err(error)
        }
    }
}

/// The room that is taken for the text at once: all of it, unless there are very many octets.
fn room_for(form: LineForm, octets: &[u8]) -> usize
    requires { IsForm form }
{
    match u32::try_from(octets.len()) {
        Ok(count) => text_size(form, count) as usize,
        Err(_) => 0,
    }
}

/// Adds the text line by line. Without memory a part of it may be there.
fn push_each(out: &mut Vec<u8>, form: LineForm, octets: &[u8]) -> Result<(), NoMemory>
    requires { IsForm form }
    ensures ok { OnOk result (out.new.items ≡ out.old.items ++ text_of form octets.now) }
    ensures err { OnErr result ((more : List ℕ) × (out.new.items ≡ out.old.items ++ more)) }
{
    let size = form.length as usize / 4 * 3;
    let mut rest = octets;
    while rest.len() > size {
        let (line, behind) = rest.split_at(size);
        push_encoded(out, line)?;
        push_break(out, form.crlf)?;
        rest = behind;
    }
    push_encoded(out, rest)?;
    Ok(())
}

/// Adds the padded encoding of the octets of one line.
fn push_encoded(out: &mut Vec<u8>, octets: &[u8]) -> Result<(), NoMemory>
    requires { length octets.now ≤ 747 }
    ensures ok { OnOk result (out.new.items ≡ out.old.items ++ padded octets.now) }
    ensures err { OnErr result (out.new.items ≡ out.old.items) }
{
    let mut line = [0; 996];
    let Ok(size) = STANDARD.encode_slice(octets, &mut line) else {
        unreachable!()
    };
    out.extend_from_slice(&line[..size])?;
    Ok(())
}

fn push_break(out: &mut Vec<u8>, crlf: bool) -> Result<(), NoMemory>
    ensures ok { OnOk result (out.new.items ≡ out.old.items ++ line_break crlf) }
    ensures err { OnErr result (out.new.items ≡ out.old.items) }
{
    if crlf {
        out.extend_from_slice(b"\r\n")?;
    } else {
        out.extend_from_slice(b"\n")?;
    }
    Ok(())
}
