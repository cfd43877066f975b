// Lines of a text.
ghost use Rattle.std.specs.Prelude.{◌≡◌, ◌≤◌, ◌<◌, ◌↔◌, ℕ, length, take, slice_index, ◌+◌, IsNone, IfSome};
ghost use Rattle.model_mime.specs.Lines.{content, IsLineAt};

use memchr::memchr;
use model_mime::Line;

/// The line that starts at a place, where the text goes on there.
pub fn next_line(text: &[u8], from: usize) -> Option<Line>
    ensures none { IsNone result ↔ (length text.now ≤ from) }
    ensures line { IfSome result (λ line. IsLineAt text.now from line) }
{
    if from >= text.len() {
        return None;
    }
    let rest = &text[from..];
    match memchr(b'\n', rest) {
        Some(at) => {
            let end = text_end(rest, at);
            Some(Line {
                start: from,
                end: from + end,
                next: from + at + 1,
            })
        }
        None => Some(Line {
            start: from,
            end: text.len(),
            next: text.len(),
        }),
    }
}

/// Where the text of a first line ends whose LF is at this place.
fn text_end(rest: &[u8], at: usize) -> usize
    requires at { at < length rest.now }
    requires lf { slice_index rest.now at ≡ 10 }
    ensures within { result ≤ at }
    ensures text { content (take (at + 1) rest.now) ≡ take result rest.now }
{
    if at > 0 && rest[at - 1] == b'\r' {
        at - 1
    } else {
        at
    }
}
