// What the header fields of an entity say.
ghost use Rattle.std.specs.Prelude.{◌≡◌, ◌≤◌, ◌<◌, ◌∷◌, ◌++◌, [], ℕ, List, length, take, drop, IfSome, IfNone, Some, None, true, false, codes};
ghost use Rattle.model_mime.specs.Lines.{texts};
ghost use Rattle.model_mime.specs.Fields.{value_of, is_field_named, fields_of, kind_of, coding_of};

use crate::lines::next_line;
use crate::value::Value;
use model_mime::{Coding, Fields, Kind};

/// What a header block says: the kind by the first Content-Type, the coding by the first Content-Transfer-Encoding.
#[tactic(auto, unfolding(model_mime::specs::Fields::fields_of))]
pub fn read_fields(block: &[u8]) -> Fields
    ensures { result ≡ fields_of block.now }
{
    Fields {
        kind: kind_in(block),
        coding: coding_in(block),
    }
}

fn kind_in(block: &[u8]) -> Kind
    ensures { result ≡ kind_of (value_of (codes "content-type:") (texts block.now)) }
{
    match field(block, b"content-type:") {
        Some(mut value) => match value.kind() {
            Some(kind) => kind,
            None => Kind::Unreadable,
        },
        None => Kind::Missing,
    }
}

#[tactic(auto, unfolding(model_mime::specs::Fields::coding_of))]
fn coding_in(block: &[u8]) -> Coding
    ensures { result ≡ coding_of (value_of (codes "content-transfer-encoding:") (texts block.now)) }
{
    match field(block, b"content-transfer-encoding:") {
        Some(mut value) => value.coding(),
        None => Coding::Plain,
    }
}

/// The value of the first field of a name, which is given with its colon, in lower case.
fn field<'a>(block: &'a [u8], name: &[u8]) -> Option<Value<'a>>
    ensures some { IfSome result (λ v. value_of name.now (texts block.now) ≡ Some v) }
    ensures none { IfNone result (value_of name.now (texts block.now) ≡ None) }
{
    let mut at = 0;
    while let Some(line) = next_line(block, at) {
        if let Some(value) = behind_name(&block[line.start..line.end], name) {
            return Some(Value::of(value, &block[line.next..]));
        }
        at = line.next;
    }
    None
}

/// What stands in a line behind a name.
fn behind_name<'a>(line: &'a [u8], name: &[u8]) -> Option<&'a [u8]>
    ensures some { IfSome result (λ value. (is_field_named name.now line.now ≡ true) × (value.now ≡ drop (length name.now) line.now)) }
    ensures none { IfNone result (is_field_named name.now line.now ≡ false) }
{
    if line.len() < name.len() {
        return None;
    }
    let (front, value) = line.split_at(name.len());
    if front.eq_ignore_ascii_case(name) {
        Some(value)
    } else {
        None
    }
}
