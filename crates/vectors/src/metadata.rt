// Metadata lines and references.
use crate::line_text::{push_line, push_octets};
use case_text::{Stream, Texts, push_shown};
use dbox_metadata::{MetaError, push_metadata, push_refs, read_metadata, read_refs};
use mdbox_base::{NoMemory, Octets};
use std::alloc::Global;

/// The lines as they are written, or where the first bad one begins.
pub fn tell_metadata(
    alloc: Global,
    out: &mut String,
    texts: &Texts,
    octets: &[u8],
) -> Result<(), NoMemory> {
    let meta = match read_metadata(alloc, octets) {
        Ok(meta) => meta,
        Err(MetaError::NoMemory) => return Err(NoMemory),
        Err(error) => {
            let text = format!(in alloc; "{error}")?;
            return push_line(out, text.as_str());
        }
    };
    let mut written = Octets::empty(alloc);
    push_metadata(alloc, &mut written, &meta)?;
    if written.length() == 0 {
        return push_line(out, "no lines");
    }
    push_shown(out, texts, Stream::Output, written.as_slice())
}

/// The references as they are written.
pub fn tell_refs(alloc: Global, out: &mut String, octets: &[u8]) -> Result<(), NoMemory> {
    let Some(refs) = read_refs(alloc, octets)? else {
        return push_line(out, "none");
    };
    if refs.length() == 0 {
        return push_line(out, "none");
    }
    let mut written = Octets::empty(alloc);
    push_refs(alloc, &mut written, &refs)?;
    push_octets(out, "", written.as_slice())
}
