// The metadata lines of a message.
ghost use Rattle.std.specs.Prelude.{◌≡◌, ◌≤◌, ◌<◌, ◌∷◌, ℕ, List, length, drop, IfOk, IfErr, IfSome, IfNone};
ghost use Rattle.dbox_file.specs.Reading.{FoundSome, Flawed};
ghost use Rattle.dbox_file.specs.Rows.{IsRows, HasLine};

use crate::reading::Flaw;
use memchr::memchr;

/// How many octets the lines of a block and its empty line have at most: 1,048,576 without LF 01 03 LF.
const ROOM: usize = 1_048_572;

/// What follows the metadata lines and the empty line.
pub fn behind_lines(text: &[u8]) -> Result<&[u8], Flaw>
    ensures found { IfOk result (λ rest. FoundSome (IsRows ROOM) text.now rest.now) }
    ensures flaw { IfErr result (Flawed (IsRows ROOM) text.now) }
{
    let mut rest = text;
    let mut room = ROOM;
    while let Some(length) = line_length(rest, room)? {
        (_, rest) = rest.split_at(length);
        room -= length;
    }
    Ok(&rest[1..])
}

/// The length of the line at the front, its LF included, or None where the empty line stands there.
fn line_length(text: &[u8], room: usize) -> Result<Option<usize>, Flaw>
    ensures line { IfOk result (λ found. IfSome found (λ length. HasLine text.now length × (length ≤ room))) }
    ensures empty { IfOk result (λ found. IfNone found ((text.now ≡ 10 ∷ drop 1 text.now) × (0 < room))) }
    ensures flaw { IfErr result (Flawed (IsRows room) text.now) }
{
    if room == 0 {
        return Err(Flaw::Bad);
    }
    let Some((key, value)) = text.split_first() else {
        return Err(Flaw::Short);
    };
    if *key == b'\n' {
        return Ok(None);
    }
    match memchr(b'\n', value) {
        Some(end) if end + 2 <= room => Ok(Some(end + 2)),
        None if text.len() + 2 <= room => Err(Flaw::Short),
        _ => Err(Flaw::Bad),
    }
}
