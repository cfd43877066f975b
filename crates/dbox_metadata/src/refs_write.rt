// The references of an `X` line, written.
ghost use Rattle.std.specs.Prelude.{◌≡◌, ◌≤◌, ◌++◌, ℕ, List, length, Option, OnOk, OnErr};
ghost use Rattle.hex.specs.Hex.{encode_lower};
ghost use Rattle.mdbox_base.specs.declared.metadata.LineForm.{LineForm};
ghost use Rattle.mdbox_base.specs.declared.metadata.ExtRef.{ExtRef};
ghost use Rattle.model_storage.specs.References.{instance_path, options_text, reference_text, references_text};

use mdbox_base::{ExtRef, Hash, InstId, LineForm, NoMemory, Octets, Seq, push_decimal};
use std::alloc::Global;

/// Appends the value of an `X` line with these references. Without memory nothing is appended.
pub fn push_refs(alloc: Global, out: &mut Octets, refs: &Seq<ExtRef>) -> Result<(), NoMemory>
    requires { 1 ≤ length refs.now }
    ensures ok { OnOk result (out.new ≡ out.old ++ references_text refs.now) }
    ensures err { OnErr result (out.new ≡ out.old) }
{
    let mut text = Octets::empty(alloc);
    push_each(alloc, &mut text, refs.as_slice())?;
    out.push_all(text.as_slice())
}

/// Appends references, a space between two. Without memory some of them may be there.
pub fn push_each(alloc: Global, out: &mut Octets, refs: &[ExtRef]) -> Result<(), NoMemory>
    ensures { OnOk result (out.new ≡ out.old ++ references_text refs.now) }
{
    let Some((first, others)) = refs.split_first() else {
        return Ok(());
    };
    push_reference(alloc, out, first)?;
    for reference in others {
        out.push_all(b" ")?;
        push_reference(alloc, out, reference)?;
    }
    Ok(())
}

fn push_reference(alloc: Global, out: &mut Octets, reference: &ExtRef) -> Result<(), NoMemory>
    ensures { OnOk result (out.new ≡ out.old ++ reference_text reference.now) }
{
    push_decimal(out, u64::from(reference.start))?;
    out.push_all(b" ")?;
    push_decimal(out, u64::from(reference.count))?;
    out.push_all(b" ")?;
    push_options(out, reference.form)?;
    out.push_all(b" ")?;
    push_path(alloc, out, reference.hash, reference.id)
}

fn push_options(out: &mut Octets, form: Option<LineForm>) -> Result<(), NoMemory>
    ensures { OnOk result (out.new ≡ out.old ++ options_text form) }
{
    let Some(form) = form else {
        return out.push_all(b"-");
    };
    out.push_all(b"B")?;
    push_decimal(out, u64::from(form.length))?;
    if form.crlf {
        out.push_all(b"C")?;
    }
    Ok(())
}

fn push_path(alloc: Global, out: &mut Octets, hash: Hash, id: InstId) -> Result<(), NoMemory>
    ensures { OnOk result (out.new ≡ out.old ++ instance_path hash id) }
{
    let Hash(hash) = hash;
    let InstId(id) = id;
    push_digits(alloc, out, &hash[..1])?;
    out.push_all(b"/")?;
    push_digits(alloc, out, &hash[1..2])?;
    out.push_all(b"/")?;
    push_digits(alloc, out, &hash)?;
    out.push_all(b"-")?;
    push_digits(alloc, out, &id)
}

/// Appends two lower-case hexadecimal digits for each octet.
pub fn push_digits(alloc: Global, out: &mut Octets, octets: &[u8]) -> Result<(), NoMemory>
    ensures { OnOk result (out.new ≡ out.old ++ encode_lower octets.now) }
{
    let digits = hex::encode(alloc, octets)?;
    out.push_all(digits.as_bytes())
}
