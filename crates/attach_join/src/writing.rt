// The texts of instances, written over the ranges in which their octets are kept.
ghost use Rattle.std.specs.Prelude.{◌≡◌, ◌≤◌, ◌+◌, ◌-◌, ℕ, List, length, take, drop, All, IfSome};
ghost use Rattle.model_base64.specs.Base64Text.{IsForm, text_of};
ghost use Rattle.model_attach.specs.Rejoined.{IsWhole, part_text};
ghost use Rattle.attach_join.specs.Behind.{octets_in};
ghost use Rattle.attach_join.specs.Kept.{FitInto, kept_in};
ghost use Rattle.attach_join.specs.Spread.{outside};

use b64_lines::LineWriter;
use mdbox_base::{ExtRef, InstRow, LineForm};

/// Writes the text of each instance over its range, at whose end its octets are kept. They go through a block, piece by piece.
pub fn write_texts(whole: &mut [u8], refs: &[ExtRef], rows: &[InstRow], block: &mut [u8])
    requires fit { (stored : ℕ) × FitInto (length whole.old) stored refs.now rows.now }
    requires forms { All (λ ref. IfSome ref.form IsForm) refs.now }
    requires block { 1 ≤ length block.old }
    ensures whole { IsWhole whole.new (outside refs.now whole.old) refs.now (octets_in rows.now (kept_in refs.now rows.now whole.old)) }
    ensures size { length whole.new ≡ length whole.old }
{
    let mut refs = refs;
    let mut rows = rows;
    while let Some((reference, others)) = refs.split_first() {
        let Some((row, behind)) = rows.split_first() else {
            unreachable!()
        };
        write_text(whole, *reference, row.size as usize, block);
        refs = others;
        rows = behind;
    }
}

/// Writes the text of an instance over its range, at whose end its octets are kept.
fn write_text(whole: &mut [u8], reference: ExtRef, size: usize, block: &mut [u8])
    requires form { IfSome reference.form IsForm }
    requires within { reference.start + reference.count ≤ length whole.old }
    requires long { (octets : List ℕ) → length octets ≡ size → length (part_text reference.form octets) ≡ reference.count }
    requires size { size ≤ reference.count }
    requires block { 1 ≤ length block.old }
    ensures front { take reference.start whole.new ≡ take reference.start whole.old }
    ensures text { take reference.count (drop reference.start whole.new) ≡ part_text reference.form (take size (drop (reference.start + reference.count - size) whole.old)) }
    ensures behind { drop (reference.start + reference.count) whole.new ≡ drop (reference.start + reference.count) whole.old }
    ensures size { length whole.new ≡ length whole.old }
    ensures block { length block.new ≡ length block.old }
{
    let start = reference.start as usize;
    let end = start + reference.count as usize;
    match reference.form {
        None => (),
        Some(form) => write_lines(&mut whole[start..end], form, size, block),
    }
}

/// Writes the text of the last octets of a range over all of it. What is written never comes to octets that aren't read: their text is
/// no shorter than they are.
fn write_lines(range: &mut [u8], form: LineForm, size: usize, block: &mut [u8])
    requires form { IsForm form }
    requires size { size ≤ length range.old }
    requires long { length (text_of form (drop (length range.old - size) range.old)) ≡ length range.old }
    requires block { 1 ≤ length block.old }
    ensures text { range.new ≡ text_of form (drop (length range.old - size) range.old) }
    ensures block { length block.new ≡ length block.old }
{
    let mut writer = LineWriter::of(form);
    let mut place = range.len() - size;
    while place < range.len() {
        let count = block.len().min(range.len() - place);
        copy_from(block, range, place, count);
        writer.piece(&block[..count], range);
        place += count;
    }
    writer.end(range);
}

/// Copies octets from a place on to the front of a block.
fn copy_from(block: &mut [u8], range: &[u8], place: usize, count: usize)
    requires within { place + count ≤ length range.now }
    requires room { count ≤ length block.old }
    ensures copied { take count block.new ≡ take count (drop place range.now) }
    ensures size { length block.new ≡ length block.old }
{
    block[..count].copy_from_slice(&range[place..place + count]);
}
