// Rejoining.
ghost use Rattle.std.specs.Prelude.{◌≡◌, ◌⊎◌, ◌≤◌, ◌<◌, ◌^◌, ◌+◌, ◌++◌, ℕ, List, length, take, drop, All, IsOk, IsErrOf, IfOk, IfErr, IfSome, OnOk, None, Some};
ghost use Rattle.model_base64.specs.Base64Text.{IsForm};
ghost use Rattle.model_attach.specs.Rejoined.{IsWhole, part_text, first_bad, first_differs, join_error};

use crate::check::{check_refs, compare_texts, is_gzip};
use b64_lines::push_lines;
use mdbox_base::{ExtRef, LineForm, NoMemory, Octets, Seq};
use model_attach::JoinError;
use std::alloc::Global;

/// The whole of a stored body, references and their instances, where its size is `whole` octets. What is wrong else, in
/// the order of the variants of `JoinError`.
pub fn rejoin(
    alloc: Global,
    body: &[u8],
    whole: u64,
    refs: &Seq<ExtRef>,
    instances: &Seq<Octets>,
) -> Result<Octets, JoinError>
    requires one_each { length refs.now ≡ length instances.now }
    requires few { length refs.now < 2 ^ 32 }
    requires forms { All (λ ref. IfSome ref.form IsForm) refs.now }
    ensures whole { IfOk result (λ octets. IsWhole octets body.now refs.now instances.now × (length octets ≡ whole)) }
    ensures right { IsOk result → join_error body.now whole refs.now instances.now ≡ None }
    ensures wrong { IfErr result (λ e. (e ≡ JoinError.NoMemory) ⊎ (join_error body.now whole refs.now instances.now ≡ Some e)) }
    ensures last { IsErrOf result JoinError.NoMemory → All (λ octets. length octets < 2 ^ 62) instances.now → join_error body.now whole refs.now instances.now ≡ None }
{
    let refs = refs.as_slice();
    let instances = instances.as_slice();
    let stored = body.len() as u64;
    check_refs(stored, whole, refs, is_gzip(body))?;
    compare_texts(refs, instances)?;
    let octets = join(alloc, body, whole as usize, refs, instances)?;
    Ok(octets)
}

/// The whole, where nothing is wrong.
fn join(
    alloc: Global,
    body: &[u8],
    whole: usize,
    refs: &[ExtRef],
    instances: &[Octets],
) -> Result<Octets, NoMemory>
    requires one_each { length refs.now ≡ length instances.now }
    requires forms { All (λ ref. IfSome ref.form IsForm) refs.now }
    requires ranges { first_bad 0 (length body.now) refs.now ≡ None }
    requires texts { first_differs refs.now instances.now ≡ None }
    ensures { IfOk result (λ octets. IsWhole octets body.now refs.now instances.now) }
{
    let mut out = Vec::with_capacity(alloc, whole)?;
    let mut rest = body;
    let mut before = 0;
    for (i, reference) in refs.iter().enumerate() {
        let start = reference.start as usize;
        let (front, behind) = rest.split_at(start - before);
        out.extend_from_slice(front)?;
        push_text(&mut out, reference.form, instances[i].as_slice())?;
        rest = behind;
        before = start + reference.count as usize;
    }
    out.extend_from_slice(rest)?;
    Ok(Octets::of(out))
}

/// Adds the text that fills a reference's range at the end.
fn push_text(out: &mut Vec<u8>, form: Option<LineForm>, octets: &[u8]) -> Result<(), NoMemory>
    requires { IfSome form IsForm }
    ensures { OnOk result (out.new.items ≡ out.old.items ++ part_text form octets.now) }
{
    match form {
        None => out.extend_from_slice(octets)?,
        Some(form) => push_lines(out, form, octets)?,
    }
    Ok(())
}
