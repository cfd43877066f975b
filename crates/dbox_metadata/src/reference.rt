// One reference of an `X` line, read.
ghost use Rattle.std.specs.Prelude.{◌≡◌, ◌≢◌, ◌≤◌, ◌<◌, ◌^◌, ◌%◌, ◌++◌, ◌∷◌, [], ℕ, Bool, Option, List, length, IfSome, IfNone};
ghost use Rattle.hex.specs.Hex.{encode_lower};
ghost use Rattle.mdbox_base.specs.Numbers.{decimal_text};
ghost use Rattle.mdbox_base.specs.Words.{IsOctets};
ghost use Rattle.mdbox_base.specs.declared.ids.Hash.{Hash};
ghost use Rattle.mdbox_base.specs.declared.ids.InstId.{InstId};
ghost use Rattle.mdbox_base.specs.declared.metadata.LineForm.{LineForm};
ghost use Rattle.mdbox_base.specs.declared.metadata.ExtRef.{ExtRef};
ghost use Rattle.model_base64.specs.Base64Text.{IsForm};
ghost use Rattle.model_storage.specs.References.{options_text, instance_path, reference_text, FormFits, ReferenceFits};
ghost use Rattle.dbox_metadata.specs.Options.{lines_text};
ghost use Rattle.dbox_metadata.specs.Instances.{IsInstancePath, NamesInstance};

use crate::split::split;
use mdbox_base::{ExtRef, Hash, InstId, LineForm, read_decimal, read_lower_hex};

/// How many octets `aa/bb/HASH-ID` has.
const PATH: usize = 79;

/// The reference in front, and what follows it.
pub fn reference_at(text: &[u8]) -> Option<(ExtRef, &[u8])>
    ensures some { IfSome result (λ x. ReferenceFits x.0 × (text.now ≡ reference_text x.0 ++ x.1.now)) }
    ensures none { IfNone result ((ref : ExtRef) (behind : List ℕ) → ReferenceFits ref → text.now ≢ reference_text ref ++ behind) }
{
    let (start, rest) = number_at(text)?;
    let (count, rest) = number_at(rest)?;
    if count == 0 {
        return None;
    }
    let (form, rest) = form_at(rest)?;
    let (hash, id, rest) = instance_at(rest)?;
    let reference = ExtRef {
        start,
        count,
        form,
        hash,
        id,
    };
    Some((reference, rest))
}

/// The number in front that a space ends, and what follows the space.
fn number_at(text: &[u8]) -> Option<(u32, &[u8])>
    ensures some { IfSome result (λ x. (x.0 < 2 ^ 32) × (text.now ≡ decimal_text x.0 ++ 32 ∷ x.1.now)) }
    ensures none { IfNone result ((n : ℕ) (behind : List ℕ) → n < 2 ^ 32 → text.now ≢ decimal_text n ++ 32 ∷ behind) }
{
    let (digits, rest) = split(text, b' ')?;
    Some((number_of(digits)?, rest))
}

/// The number that these decimal digits spell.
fn number_of(digits: &[u8]) -> Option<u32>
    ensures some { IfSome result (λ n. (n < 2 ^ 32) × (digits.now ≡ decimal_text n)) }
    ensures none { IfNone result ((n : ℕ) → n < 2 ^ 32 → digits.now ≢ decimal_text n) }
{
    u32::try_from(read_decimal(digits)?).ok()
}

/// The options in front that a space ends, and what follows the space.
fn form_at(text: &[u8]) -> Option<(Option<LineForm>, &[u8])>
    ensures some { IfSome result (λ x. FormFits x.0 × (text.now ≡ options_text x.0 ++ 32 ∷ x.1.now)) }
    ensures none { IfNone result ((form : Option LineForm) (behind : List ℕ) → FormFits form → text.now ≢ options_text form ++ 32 ∷ behind) }
{
    let (options, rest) = split(text, b' ')?;
    Some((form_of(options)?, rest))
}

/// The form that these options tell.
fn form_of(options: &[u8]) -> Option<Option<LineForm>>
    ensures some { IfSome result (λ form. FormFits form × (options.now ≡ options_text form)) }
    ensures none { IfNone result ((form : Option LineForm) → FormFits form → options.now ≢ options_text form) }
{
    if options == b"-".as_slice() {
        return Some(None);
    }
    let lines = options.strip_prefix(b"B")?;
    Some(Some(lines_of(lines)?))
}

/// The form of lines whose length stands here, and then `C` if they end with CRLF.
fn lines_of(text: &[u8]) -> Option<LineForm>
    ensures some { IfSome result (λ form. IsForm form × (text.now ≡ lines_text form)) }
    ensures none { IfNone result ((form : LineForm) → IsForm form → text.now ≢ lines_text form) }
{
    match text.strip_suffix(b"C") {
        Some(length) => form_with(length, true),
        None => form_with(text, false),
    }
}

/// The form with lines of so many characters, in decimal digits.
fn form_with(digits: &[u8], crlf: bool) -> Option<LineForm>
    ensures some { IfSome result (λ form. IsForm form × (form.crlf ≡ crlf) × (digits.now ≡ decimal_text form.length)) }
    ensures none { IfNone result ((form : LineForm) → IsForm form → digits.now ≢ decimal_text form.length) }
{
    let length = number_of(digits)?;
    if 4 <= length && length <= 996 && length % 4 == 0 {
        let length = length as u16;
        Some(LineForm { length, crlf })
    } else {
        None
    }
}

/// The hash and the id of the instance whose path stands in front, and what follows it.
fn instance_at(text: &[u8]) -> Option<(Hash, InstId, &[u8])>
    ensures some { IfSome result (λ x. NamesInstance x.0 x.1 × (text.now ≡ instance_path x.0 x.1 ++ x.2.now)) }
    ensures none { IfNone result ((hash : Hash) (id : InstId) (behind : List ℕ) → NamesInstance hash id → text.now ≢ instance_path hash id ++ behind) }
{
    let (path, rest) = text.split_first_chunk::<PATH>()?;
    let (hash, id) = instance_of(path)?;
    Some((hash, id, rest))
}

/// The hash and the id of the instance with this path.
fn instance_of(path: &[u8]) -> Option<(Hash, InstId)>
    ensures some { IfSome result (λ x. IsInstancePath path.now x.0 x.1) }
    ensures none { IfNone result ((hash : Hash) (id : InstId) → IsInstancePath path.now hash id → ⊥) }
{
    let (first, rest) = split(path, b'/')?;
    let (second, name) = split(rest, b'/')?;
    let (digits, id) = split(name, b'-')?;
    let front = octet_of(first)?;
    let next = octet_of(second)?;
    let hash = read_lower_hex::<20>(digits)?;
    let id = read_lower_hex::<16>(id)?;
    if hash[0] != front || hash[1] != next {
        return None;
    }
    Some((Hash(hash), InstId(id)))
}

/// The octet that two lower-case hexadecimal digits name.
fn octet_of(digits: &[u8]) -> Option<u8>
    ensures some { IfSome result (λ octet. (octet < 256) × (digits.now ≡ encode_lower (octet ∷ []))) }
    ensures none { IfNone result ((octet : ℕ) → octet < 256 → digits.now ≢ encode_lower (octet ∷ [])) }
{
    let [octet] = read_lower_hex::<1>(digits)?;
    Some(octet)
}
