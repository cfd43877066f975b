// Instances that are kept in the ranges of their references, until their texts are written there.
ghost use Rattle.std.specs.Prelude.{◌≡◌, ◌↔◌, ◌≤◌, ◌<◌, ◌^◌, ◌+◌, ◌++◌, false, ℕ, List, length, take, drop, All, sum_by, IfSome, IsTrue, vec_capacity};
ghost use Rattle.model_base64.specs.Base64Text.{IsForm};
ghost use Rattle.model_attach.specs.Rejoined.{IsWhole, part_text};
ghost use Rattle.attach_join.specs.Behind.{octets_in};
ghost use Rattle.attach_join.specs.Kept.{FitInto, TextsFit, kept_in};
ghost use Rattle.attach_join.specs.Spread.{outside};
ghost use Rattle.mdbox_base.specs.declared.entries.InstRow.{InstRow as InstRowValue};

use crate::check::check_refs;
use crate::spreading::spread;
use b64_lines::text_length;
use mdbox_base::{ExtRef, InstRow, LineForm};

/// What memory is filled up with: a copy of many is faster than one octet after another.
const ZEROS: [u8; 4_096] = [0; 4_096];

/// Whether a body of so many octets, references, and instances of the sizes that their rows say have a whole of this size.
pub fn fit_into(whole: usize, stored: usize, refs: &[ExtRef], rows: &[InstRow]) -> bool
    requires few { (whole < 2 ^ 32) × (stored < 2 ^ 63) }
    requires forms { All (λ ref. IfSome ref.form IsForm) refs.now }
    ensures yes { IsTrue result → FitInto whole stored refs.now rows.now }
    ensures no { result ≡ false → (text body octets : List ℕ) → IsWhole text body refs.now (octets_in rows.now octets) → length body ≡ stored → sum_by (λ row. row.size) rows.now ≤ length octets → length text ≡ whole → ⊥ }
{
    match check_refs(stored as u64, whole as u64, refs, false) {
        Ok(()) => texts_fit(refs, rows),
        Err(_) => false,
    }
}

/// Whether the text of each instance is as long as its reference's range.
fn texts_fit(refs: &[ExtRef], rows: &[InstRow]) -> bool
    requires forms { All (λ ref. IfSome ref.form IsForm) refs.now }
    ensures { IsTrue result ↔ TextsFit refs.now rows.now }
{
    let mut refs = refs;
    let mut rows = rows;
    while let Some((reference, others)) = refs.split_first() {
        let Some((row, behind)) = rows.split_first() else {
            return false;
        };
        if text_size(reference.form, row.size) != u64::from(reference.count) {
            return false;
        }
        refs = others;
        rows = behind;
    }
    rows.is_empty()
}

/// The length of the text of so many octets.
fn text_size(form: Option<LineForm>, size: u32) -> u64
    requires form { IfSome form IsForm }
    ensures { (octets : List ℕ) → length octets ≡ size → result ≡ length (part_text form octets) }
{
    match form {
        None => u64::from(size),
        Some(form) => text_length(form, u64::from(size)),
    }
}

/// Spreads the body, which is the first of the octets, over those of its whole, where there is room for them.
pub fn spread_out(octets: &mut Vec<u8>, whole: usize, stored: usize, refs: &[ExtRef])
    requires fit { (rows : List InstRowValue) × FitInto whole stored refs.now rows }
    requires body { stored ≤ length octets.old.items }
    requires room { whole ≤ vec_capacity octets.old }
    ensures outside { outside refs.now octets.new.items ≡ take stored octets.old.items }
    ensures size { length octets.new.items ≡ whole }
{
    octets.truncate(stored);
    fill_up(octets, whole);
    spread(octets, stored, refs);
}

/// Keeps more octets of the instances, behind so many that are kept.
pub fn keep(whole: &mut [u8], refs: &[ExtRef], rows: &[InstRow], kept: usize, octets: &[u8])
    requires fit { (stored : ℕ) × FitInto (length whole.old) stored refs.now rows.now }
    requires forms { All (λ ref. IfSome ref.form IsForm) refs.now }
    requires room { kept + length octets.now ≤ sum_by (λ row. row.size) rows.now }
    ensures kept { take (kept + length octets.now) (kept_in refs.now rows.now whole.new) ≡ take kept (kept_in refs.now rows.now whole.old) ++ octets.now }
    ensures outside { outside refs.now whole.new ≡ outside refs.now whole.old }
    ensures size { length whole.new ≡ length whole.old }
{
    let mut refs = refs;
    let mut rows = rows;
    let mut before = kept;
    let mut rest = octets;
    while let Some((reference, others)) = refs.split_first() {
        let Some((row, behind)) = rows.split_first() else {
            unreachable!()
        };
        let size = row.size as usize;
        let skipped = before.min(size);
        let (front, back) = rest.split_at(rest.len().min(size - skipped));
        let end = reference.start as usize + reference.count as usize;
        put_at(whole, end - size + skipped, front);
        before -= skipped;
        rest = back;
        refs = others;
        rows = behind;
    }
}

/// Puts octets over those from a place on.
fn put_at(whole: &mut [u8], place: usize, octets: &[u8])
    requires { place + length octets.now ≤ length whole.old }
    ensures put { whole.new ≡ take place whole.old ++ (octets.now ++ drop (place + length octets.now) whole.old) }
    ensures size { length whole.new ≡ length whole.old }
{
    whole[place..place + octets.len()].copy_from_slice(octets);
}

/// Adds zeros at the end, up to a length, where there is room for them.
fn fill_up(out: &mut Vec<u8>, end: usize)
    requires more { length out.old.items ≤ end }
    requires room { end ≤ vec_capacity out.old }
    ensures front { (zeros : List ℕ) × (out.new.items ≡ out.old.items ++ zeros) }
    ensures size { length out.new.items ≡ end }
    ensures kept { vec_capacity out.old ≤ vec_capacity out.new }
{
    while out.len() < end {
        let count = (end - out.len()).min(ZEROS.len());
        let Ok(()) = out.extend_from_slice(&ZEROS[..count]) else {
            unreachable!()
        };
    }
}
