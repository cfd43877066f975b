// Delimiter lines and closing lines.
ghost use Rattle.std.specs.Prelude.{◌≡◌, ◌++◌, ◌<◌, List, ℕ, length, true, false, IfSome, IfNone};
ghost use Rattle.std.specs.List.{list_all};
ghost use Rattle.model_mime.specs.Lines.{is_blank};
ghost use Rattle.mime_parts.specs.Marks.{MarkSays, LineEnds};

use model_mime::Boundary;

/// What a line is to a boundary.
#[derive(Clone, Copy, Debug, PartialEq, Eq)]
pub enum Mark {
    Nothing,
    Delimiter,
    Closing,
}

/// Which boundary a line ends a part of: the outermost, by its place from the outermost on.
#[derive(Clone, Copy, Debug, PartialEq, Eq)]
pub enum Ending {
    Nothing,
    Delimiter(usize),
    Closing(usize),
}

/// Which of these boundaries a line ends a part of.
pub fn ending_of(stack: &[Boundary], text: &[u8]) -> Ending
    ensures { LineEnds result stack.now text.now }
{
    let Some(_) = behind(b"--", text) else {
        return Ending::Nothing;
    };
    let mut i = 0;
    while i < stack.len() {
        match mark_by(&stack[i], text) {
            Mark::Nothing => {}
            Mark::Delimiter => return Ending::Delimiter(i),
            Mark::Closing => return Ending::Closing(i),
        }
        i += 1;
    }
    Ending::Nothing
}

fn mark_by(boundary: &Boundary, text: &[u8]) -> Mark
    ensures { MarkSays result boundary.now text.now }
{
    mark_of(boundary.as_octets(), text)
}

fn mark_of(boundary: &[u8], text: &[u8]) -> Mark
    ensures { MarkSays result boundary.now text.now }
{
    let Some(inside) = behind(b"--", text) else {
        return Mark::Nothing;
    };
    let Some(rest) = behind(boundary, inside) else {
        return Mark::Nothing;
    };
    if all_blank(rest) {
        return Mark::Delimiter;
    }
    let Some(more) = behind(b"--", rest) else {
        return Mark::Nothing;
    };
    if all_blank(more) {
        Mark::Closing
    } else {
        Mark::Nothing
    }
}

/// What stands behind a front, where a text begins with it.
fn behind<'a>(front: &[u8], text: &'a [u8]) -> Option<&'a [u8]>
    ensures some { IfSome result (λ rest. text.now ≡ front.now ++ rest.now) }
    ensures none { IfNone result ((rest : List ℕ) → text.now ≡ front.now ++ rest → ⊥) }
{
    let size = front.len();
    if size > text.len() {
        return None;
    }
    if is_same(&text[..size], front) {
        Some(&text[size..])
    } else {
        None
    }
}

fn is_same(a: &[u8], b: &[u8]) -> bool
    ensures yes { result ≡ true → a.now ≡ b.now }
    ensures no { result ≡ false → a.now ≡ b.now → ⊥ }
{
    a == b
}

fn all_blank(text: &[u8]) -> bool
    ensures { result ≡ list_all is_blank text.now }
{
    text.iter().all(|octet| *octet == b' ' || *octet == b'\t')
}
