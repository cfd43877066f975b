// Base64 text, written piece by piece into a slice.
ghost use Rattle.std.specs.Prelude.{◌≡◌, ◌≤◌, ◌<◌, ◌+◌, ◌*◌, ◌/◌, ◌++◌, [], ℕ, List, length, take, drop};
ghost use Rattle.model_base64.specs.Base64Text.{IsForm, line_break, padded, text_of};
ghost use Rattle.b64_lines.specs.Pairs.{ArePairs};
ghost use Rattle.b64_lines.specs.Writer.{HasWrittenText};

use crate::pairs::{PAIRS, put_groups, symbol_pairs};
use base64::engine::general_purpose::STANDARD;
use mdbox_base::LineForm;
use std::marker::Model;

/// How many octets a line encodes at the most.
const LONGEST: usize = 747;

/// Writes the text of a form and octets that come in pieces, however they are cut. The octets of the last line are kept until it is
/// known whether others follow.
#[derive(Drop)]
pub struct LineWriter {
    form: LineForm,
    /// How many octets of the text are written.
    at: usize,
    /// The octets that are kept, as many as `kept`.
    line: [u8; LONGEST],
    kept: usize,
    /// Two symbols for each twelve bits.
    pairs: [u8; PAIRS],
}

impl Model for LineWriter {
    ghost use Rattle.std.specs.Prelude.{◌≤◌, ◌*◌, ◌/◌, take};
    ghost use Rattle.model_base64.specs.Base64Text.{IsForm};
    ghost use Rattle.b64_lines.specs.Pairs.{ArePairs};
    ghost use Rattle.b64_lines.specs.Writer.{WriterValue};

    ghost Value = { WriterValue };

    ghost view = { λ w. record { form = w.form; at = w.at; carry = take w.kept w.line } };

    ghost invariant = { λ w. IsForm w.form × (w.kept ≤ w.form.length / 4 * 3) × ArePairs w.pairs };
}

impl LineWriter {
    /// A writer of the text of this form, of which nothing is written.
    pub fn of(form: LineForm) -> LineWriter
        requires { IsForm form }
        ensures { result ≡ record { form = form; at = 0; carry = [] } }
    {
        LineWriter {
            form,
            at: 0,
            line: [0; LONGEST],
            kept: 0,
            pairs: symbol_pairs(),
        }
    }

    /// Writes the text of more octets behind what it has written, but for those that it keeps. What stands behind the text stays, so the
    /// octets may have stood there.
    pub fn piece(&mut self, octets: &[u8], into: &mut [u8])
        requires room { (given : List ℕ) × HasWrittenText self.old given into.old × (length (text_of self.old.form (given ++ octets.now)) ≤ length into.old) }
        ensures written { (given : List ℕ) → HasWrittenText self.old given into.old → HasWrittenText self.new (given ++ octets.now) into.new }
        ensures behind { drop self.new.at into.new ≡ drop self.new.at into.old }
        ensures form { self.new.form ≡ self.old.form }
        ensures size { length into.new ≡ length into.old }
    {
        let form = self.form;
        let space = octets_of_line(form) - self.kept;
        let (front, rest) = octets.split_at(octets.len().min(space));
        self.kept = put_behind(&mut self.line, self.kept, front);
        if rest.is_empty() {
            return;
        }
        let at = put_line(
            into,
            self.at,
            &self.line[..self.kept],
            form.crlf,
            &self.pairs,
        );
        let (at, last) = put_lines(into, at, form, rest, &self.pairs);
        self.at = at;
        self.kept = put_behind(&mut self.line, 0, last);
    }

    /// Writes what it has kept: the text of all octets is then at the beginning.
    pub fn end(self, into: &mut [u8])
        requires room { (given : List ℕ) × HasWrittenText self given into.old × (length (text_of self.form given) ≤ length into.old) }
        ensures written { (given : List ℕ) → HasWrittenText self given into.old → take (length (text_of self.form given)) into.new ≡ text_of self.form given }
        ensures size { length into.new ≡ length into.old }
    {
        let LineWriter {
            form: _form,
            at,
            line,
            kept,
            pairs,
        } = self;
        put_encoded(into, at, &line[..kept], &pairs);
    }
}

/// How many octets a full line encodes.
fn octets_of_line(form: LineForm) -> usize
    requires { IsForm form }
    ensures size { result ≡ form.length / 4 * 3 }
    ensures most { result ≤ 747 }
{
    form.length as usize / 4 * 3
}

/// Puts octets behind the first ones of a line, and answers how many there are then.
fn put_behind(line: &mut [u8; LONGEST], kept: usize, octets: &[u8]) -> usize
    requires { kept + length octets.now ≤ 747 }
    ensures put { take result line.new ≡ take kept line.old ++ octets.now }
    ensures count { result ≡ kept + length octets.now }
{
    let end = kept + octets.len();
    line[kept..end].copy_from_slice(octets);
    end
}

/// Writes the padded encoding of the octets of a line at a place, and answers where it ends.
fn put_encoded(into: &mut [u8], at: usize, octets: &[u8], pairs: &[u8; PAIRS]) -> usize
    requires pairs { ArePairs pairs.now }
    requires room { at + length (padded octets.now) ≤ length into.old }
    ensures put { take result into.new ≡ take at into.old ++ padded octets.now }
    ensures behind { drop result into.new ≡ drop result into.old }
    ensures end { result ≡ at + length (padded octets.now) }
    ensures size { length into.new ≡ length into.old }
{
    let (groups, last) = octets.split_at(octets.len() / 3 * 3);
    let end = put_groups(into, at, groups, pairs);
    if last.is_empty() {
        end
    } else {
        put_last(into, end, last)
    }
}

/// The same of the last octets of a line.
fn put_last(into: &mut [u8], at: usize, octets: &[u8]) -> usize
    requires { at + length (padded octets.now) ≤ length into.old }
    ensures put { take result into.new ≡ take at into.old ++ padded octets.now }
    ensures behind { drop result into.new ≡ drop result into.old }
    ensures end { result ≡ at + length (padded octets.now) }
    ensures size { length into.new ≡ length into.old }
{
    let Ok(size) = STANDARD.encode_slice(octets, &mut into[at..]) else {
        unreachable!()
    };
    at + size
}

/// Writes a line and the break behind it at a place, and answers where they end.
fn put_line(into: &mut [u8], at: usize, octets: &[u8], crlf: bool, pairs: &[u8; PAIRS]) -> usize
    requires pairs { ArePairs pairs.now }
    requires room { at + length (padded octets.now ++ line_break crlf) ≤ length into.old }
    ensures put { take result into.new ≡ take at into.old ++ (padded octets.now ++ line_break crlf) }
    ensures behind { drop result into.new ≡ drop result into.old }
    ensures end { result ≡ at + length (padded octets.now ++ line_break crlf) }
    ensures size { length into.new ≡ length into.old }
{
    let end = put_encoded(into, at, octets, pairs);
    if crlf {
        into[end] = b'\r';
        into[end + 1] = b'\n';
        end + 2
    } else {
        into[end] = b'\n';
        end + 1
    }
}

/// Writes all lines of a text behind which others come, and answers where they end and the octets of the last line.
fn put_lines<'a>(
    into: &mut [u8],
    at: usize,
    form: LineForm,
    octets: &'a [u8],
    pairs: &[u8; PAIRS],
) -> (usize, &'a [u8])
    requires pairs { ArePairs pairs.now }
    requires form { IsForm form }
    requires room { at + length (text_of form octets.now) ≤ length into.old }
    ensures written { (more : List ℕ) → take result.0 into.new ++ text_of form (result.1.now ++ more) ≡ take at into.old ++ text_of form (octets.now ++ more) }
    ensures within { result.0 ≤ length into.new }
    ensures behind { drop result.0 into.new ≡ drop result.0 into.old }
    ensures order { at ≤ result.0 }
    ensures last { length result.1.now ≤ form.length / 4 * 3 }
    ensures size { length into.new ≡ length into.old }
{
    let size = octets_of_line(form);
    let mut at = at;
    let mut rest = octets;
    while rest.len() > size {
        let (line, behind) = rest.split_at(size);
        at = put_line(into, at, line, form.crlf, pairs);
        rest = behind;
    }
    (at, rest)
}
