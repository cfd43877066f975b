// Text that is canonical, and its octets.
ghost use Rattle.std.specs.Prelude.{◌≡◌, ◌≢◌, ◌≤◌, ◌<◌, ◌-◌, ◌%◌, ◌==◌, ◌&&◌, ◌++◌, ℕ, List, length, slice_index, IfOk, IfSome, IfNone, true, false, Some, None, nat_le, if◌then◌else◌};
ghost use Rattle.base64.specs.GeneralPurpose.{IsBytes};
ghost use Rattle.mdbox_base.specs.declared.metadata.LineForm.{LineForm};
ghost use Rattle.model_base64.specs.Base64Text.{IsCanonical, IsForm, in_lines, line_break, padded};

use base64::DecodeAllocError;
use base64::engine::general_purpose::STANDARD;
use mdbox_base::{LineForm, NoMemory, Octets};
use memchr::memchr;
use std::alloc::Global;

/// The form and the octets of a text that is canonical base64 text. None where it isn't.
pub fn recognise(alloc: Global, text: &[u8]) -> Result<Option<(LineForm, Octets)>, NoMemory>
    ensures some { IfOk result (λ found. IfSome found (λ (form, octets). IsCanonical text.now form octets)) }
    ensures none { IfOk result (λ found. IfNone found ((form : LineForm) (octets : List ℕ) → IsCanonical text.now form octets → ⊥)) }
{
    let Some(form) = form_of(text) else {
        return Ok(None);
    };
    let n = form.length as usize;
    if n == text.len() {
        let Some(octets) = decoded(alloc, text)? else {
            return Ok(None);
        };
        Ok(Some((form, octets)))
    } else {
        let Some(characters) = characters(alloc, text, n, form.crlf)? else {
            return Ok(None);
        };
        let Some(octets) = decoded(alloc, characters.as_slice())? else {
            return Ok(None);
        };
        Ok(Some((form, octets)))
    }
}

/// The form that a canonical text would have, by its first line.
fn form_of(text: &[u8]) -> Option<LineForm>
    ensures only { (form : LineForm) (octets : List ℕ) → IsCanonical text.now form octets → result ≡ Some form }
    ensures form { IfSome result (λ form. IsForm form) }
    ensures single { IfSome result (λ form. (form.length ≤ length text.now) × (form.length ≡ length text.now → form.crlf ≡ false)) }
{
    match memchr(b'\n', text) {
        None => form_with(text.len(), false),
        Some(at) => {
            if has_cr(text, at) {
                form_with(at - 1, true)
            } else {
                form_with(at, false)
            }
        }
    }
}

/// A form, where lines may be so long.
fn form_with(length: usize, crlf: bool) -> Option<LineForm>
    ensures { result ≡ (if nat_le 4 length && nat_le length 996 && length % 4 == 0 then Some (record { length = length; crlf = crlf }) else None) }
{
    if 4 <= length && length <= 996 && length % 4 == 0 {
        Some(LineForm {
            length: length as u16,
            crlf,
        })
    } else {
        None
    }
}

/// Whether a CR stands before a place.
fn has_cr(text: &[u8], at: usize) -> bool
    requires { at < length text.now }
    ensures yes { result ≡ true → (0 < at) × (slice_index text.now (at - 1) ≡ 13) }
    ensures no { result ≡ false → 0 < at → slice_index text.now (at - 1) ≢ 13 }
{
    at > 0 && text[at - 1] == b'\r'
}

/// The characters of a text in lines of n. None where it isn't in such lines, or empty.
fn characters(alloc: Global, text: &[u8], n: usize, crlf: bool) -> Result<Option<Vec<u8>>, NoMemory>
    requires { 0 < n }
    ensures some { IfOk result (λ found. IfSome found (λ v. (0 < length v.items) × (text.now ≡ in_lines n (line_break crlf) n v.items))) }
    ensures only { IfOk result (λ found. IfSome found (λ v. (cs : List ℕ) → 0 < length cs → text.now ≡ in_lines n (line_break crlf) n cs → cs ≡ v.items)) }
    ensures none { IfOk result (λ found. IfNone found ((cs : List ℕ) → 0 < length cs → text.now ≡ in_lines n (line_break crlf) n cs → ⊥)) }
{
    let mut out = Vec::with_capacity(alloc, text.len())?;
    let mut rest = text;
    while rest.len() > n {
        let (line, behind) = rest.split_at(n);
        let Some(next) = behind_break(behind, crlf) else {
            return Ok(None);
        };
        out.extend_from_slice(line)?;
        rest = next;
    }
    if rest.is_empty() {
        return Ok(None);
    }
    out.extend_from_slice(rest)?;
    Ok(Some(out))
}

/// What stands behind the line break that a text begins with.
fn behind_break(text: &[u8], crlf: bool) -> Option<&[u8]>
    ensures some { IfSome result (λ rest. text.now ≡ line_break crlf ++ rest.now) }
    ensures none { IfNone result ((rest : List ℕ) → text.now ≡ line_break crlf ++ rest → ⊥) }
{
    match text {
        [b'\r', b'\n', rest @ ..] if crlf => Some(rest),
        [b'\n', rest @ ..] if !crlf => Some(rest),
        _ => None,
    }
}

/// The octets whose padded encoding the characters are.
fn decoded(alloc: Global, characters: &[u8]) -> Result<Option<Octets>, NoMemory>
    ensures some { IfOk result (λ found. IfSome found (λ octets. IsBytes octets × (characters.now ≡ padded octets))) }
    ensures none { IfOk result (λ found. IfNone found ((octets : List ℕ) → IsBytes octets → characters.now ≡ padded octets → ⊥)) }
{
    match STANDARD.decode(alloc, characters) {
        Ok(octets) => Ok(Some(Octets::of(octets))),
        Err(DecodeAllocError::DecodeError(_)) => Ok(None),
        Err(DecodeAllocError::OutOfMemory) => Err(NoMemory),
    }
}
