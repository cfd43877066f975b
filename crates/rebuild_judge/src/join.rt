// Whether a stored body and instances join, by their sizes alone.
ghost use Rattle.std.specs.Prelude.{◌≡◌, ◌<◌, ◌^◌, ◌+◌, ◌-◌, ◌==◌, ℕ, List, length, map, sum_by, All, IfOk, IfErr, IfSome, None};
ghost use Rattle.model_attach.specs.Rejoined.{first_bad, first_differs, found_size, is_bad, join_error, part_text};
ghost use Rattle.model_base64.specs.Base64Text.{IsForm};
ghost use Rattle.rebuild_judge.specs.Joining.{DiffersFor, IsBadFor, JoinsAs};

use b64_lines::text_length;
use mdbox_base::{ExtRef, LineForm};
use model_found::Reason;

/// The size of the whole of a body with `stored` octets and of instances of these sizes, whose lines tell `whole` octets. Else why
/// they don't join; a body that is compressed is one of another size.
pub fn joined_size(stored: u64, whole: u64, refs: &[ExtRef], sizes: &[u64]) -> Result<u64, Reason>
    requires few { stored < 2 ^ 32 }
    requires one_each { length refs.now ≡ length sizes.now }
    requires forms { All (λ ref. IfSome ref.form IsForm) refs.now }
    ensures size { IfOk result (λ size. (size ≡ whole) × (size ≡ found_size stored refs.now)) }
    ensures joins { (body : List ℕ) (octets : List (List ℕ)) → length body ≡ stored → map length octets ≡ sizes.now → JoinsAs (join_error body whole refs.now octets) result }
{
    let sum = counted(stored, refs)?;
    let found = stored + sum;
    if whole != found {
        return Err(Reason::SizeDiffers);
    }
    compare_texts(refs, sizes)?;
    Ok(found)
}

/// The sum of all counts, if each range is good.
fn counted(stored: u64, refs: &[ExtRef]) -> Result<u64, Reason>
    requires { stored < 2 ^ 63 }
    ensures ok { IfOk result (λ sum. (first_bad 0 stored refs.now ≡ None) × (sum ≡ sum_by (λ ref. ref.count) refs.now)) }
    ensures err { IfErr result (IsBadFor stored refs.now) }
    ensures small { IfOk result (λ sum. sum < 2 ^ 32) }
{
    let mut before = 0;
    let mut sum = 0;
    for (i, reference) in refs.iter().enumerate() {
        if is_out(before, stored + sum, *reference) {
            return Err(Reason::RangeBad);
        }
        before = u64::from(reference.start) + u64::from(reference.count);
        sum += u64::from(reference.count);
    }
    Ok(sum)
}

/// Whether a range starts before a place, ends past the octets stored and counted with it, or ends too far.
fn is_out(before: u64, room: u64, reference: ExtRef) -> bool
    requires { room < 2 ^ 64 - 2 ^ 32 }
    ensures { result ≡ is_bad before room reference }
{
    let start = u64::from(reference.start);
    let count = u64::from(reference.count);
    start < before || room + count < start + count || 4_294_967_295 < start + count
}

/// Whether each reference's text is as long as its count, if its instance has this size.
fn compare_texts(refs: &[ExtRef], sizes: &[u64]) -> Result<(), Reason>
    requires one_each { length refs.now ≡ length sizes.now }
    requires forms { All (λ ref. IfSome ref.form IsForm) refs.now }
    ensures { (octets : List (List ℕ)) → map length octets ≡ sizes.now → DiffersFor (first_differs refs.now octets) result }
{
    for (i, reference) in refs.iter().enumerate() {
        if !is_as_long(*reference, sizes[i]) {
            return Err(Reason::InstanceDiffers);
        }
    }
    Ok(())
}

/// Whether the text of an instance of this size is as long as the reference's count.
fn is_as_long(reference: ExtRef, size: u64) -> bool
    requires form { IfSome reference.form IsForm }
    ensures { (octets : List ℕ) → length octets ≡ size → result ≡ (length (part_text reference.form octets) == reference.count) }
{
    if size > u64::from(reference.count) {
        return false;
    }
    size_of_text(reference.form, size) == u64::from(reference.count)
}

/// The length of the text of an instance of this size.
fn size_of_text(form: Option<LineForm>, size: u64) -> u64
    requires form { IfSome form IsForm }
    requires few { size < 2 ^ 62 }
    ensures { (octets : List ℕ) → length octets ≡ size → result ≡ length (part_text form octets) }
{
    match form {
        None => size,
        Some(form) => text_length(form, size),
    }
}
