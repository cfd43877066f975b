// What may be wrong with references and instances.
ghost use Rattle.std.specs.Prelude.{◌≡◌, ◌⊎◌, ◌≤◌, ◌<◌, ◌^◌, ◌+◌, ◌-◌, ◌==◌, ℕ, List, length, All, sum_by, if◌then◌else◌, None, Some, IsErrOf, IfOk, IfErr, IfSome, OnOk};
ghost use Rattle.model_attach.specs.declared.join_error.JoinError.TheVariants.{RangeBad, Compressed, SizeDiffers, NoMemory};
ghost use Rattle.model_base64.specs.Base64Text.{IsForm};
ghost use Rattle.model_attach.specs.Rejoined.{part_text, is_bad, first_bad, found_size, is_compressed, first_differs, range_error};

use b64_lines::text_length;
use mdbox_base::{ExtRef, LineForm, Octets};
use model_attach::JoinError;

/// The sum of all counts, where each range is good. Else the first that is bad.
fn counted(stored: u64, refs: &[ExtRef]) -> Result<u64, JoinError>
    requires { stored < 2 ^ 63 }
    ensures ok { IfOk result (λ sum. (first_bad 0 stored refs.now ≡ None) × (sum ≡ sum_by (λ ref. ref.count) refs.now)) }
    ensures err { IfErr result (λ e. (i : ℕ) × (first_bad 0 stored refs.now ≡ Some i) × (e ≡ RangeBad i)) }
    ensures small { IfOk result (λ sum. sum < 2 ^ 32) }
{
    let mut before = 0;
    let mut sum = 0;
    for (i, reference) in refs.iter().enumerate() {
        if is_out(before, stored + sum, *reference) {
            return Err(JoinError::RangeBad(i as u64));
        }
        before = u64::from(reference.start) + u64::from(reference.count);
        sum += u64::from(reference.count);
    }
    Ok(sum)
}

/// Whether a range starts before a place, ends past the octets stored and counted with it, or ends too far.
fn is_out(before: u64, room: u64, reference: ExtRef) -> bool
    requires { room < 2 ^ 64 - 2 ^ 32 }
    ensures { result ≡ is_bad before room reference }
{
    let start = u64::from(reference.start);
    let count = u64::from(reference.count);
    start < before || room + count < start + count || 4_294_967_295 < start + count
}

/// Whether the ranges of references and the size of their whole fit so many stored octets. Else what is wrong first; where the
/// body is a gzip stream, that it is one in place of its size.
pub fn check_refs(stored: u64, whole: u64, refs: &[ExtRef], gzip: bool) -> Result<(), JoinError>
    requires { stored < 2 ^ 63 }
    ensures ok { OnOk result ((first_bad 0 stored refs.now ≡ None) × (whole ≡ found_size stored refs.now)) }
    ensures err { IfErr result (λ e. range_error (first_bad 0 stored refs.now) (if whole == found_size stored refs.now then None else Some (if gzip then Compressed else SizeDiffers whole (found_size stored refs.now))) ≡ Some e) }
{
    let found = stored + counted(stored, refs)?;
    if whole == found {
        Ok(())
    } else if gzip {
        Err(JoinError::Compressed)
    } else {
        Err(JoinError::SizeDiffers { kept: whole, found })
    }
}

/// Whether a body begins like a gzip stream.
pub fn is_gzip(body: &[u8]) -> bool
    ensures { result ≡ is_compressed body.now }
{
    matches!(body, [0x1f, 0x8b, ..])
}

/// Whether each reference's text is as long as its count. The first that isn't, else; one whose text is too long for
/// its length to be told in 64 bits is lack of memory.
pub fn compare_texts(refs: &[ExtRef], instances: &[Octets]) -> Result<(), JoinError>
    requires one_each { length refs.now ≡ length instances.now }
    requires few { length refs.now < 2 ^ 32 }
    requires forms { All (λ ref. IfSome ref.form IsForm) refs.now }
    ensures ok { OnOk result (first_differs refs.now instances.now ≡ None) }
    ensures err { IfErr result (λ e. (e ≡ NoMemory) ⊎ (first_differs refs.now instances.now ≡ Some e)) }
    ensures last { IsErrOf result NoMemory → All (λ octets. length octets < 2 ^ 62) instances.now → ⊥ }
{
    for (i, reference) in refs.iter().enumerate() {
        let octets = &instances[i];
        if octets.length() >= 1 << 62 {
            return Err(JoinError::NoMemory);
        }
        let found = size_of_text(reference.form, octets);
        let kept = u64::from(reference.count);
        if kept != found {
            let index = i as u32;
            return Err(JoinError::InstanceDiffers { index, kept, found });
        }
    }
    Ok(())
}

/// The length of the text that fills a reference's range.
fn size_of_text(form: Option<LineForm>, octets: &Octets) -> u64
    requires form { IfSome form IsForm }
    requires few { length octets.now < 2 ^ 62 }
    ensures { result ≡ length (part_text form octets.now) }
{
    let count = octets.length() as u64;
    match form {
        None => count,
        Some(form) => text_length(form, count),
    }
}
