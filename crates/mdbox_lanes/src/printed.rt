// What `batch` prints.

/// A reply as it is printed: the places of its steps, and its words.
#[derive(Clone, Copy)]
pub struct Printed<'x> {
    pub first: u64,
    /// The place of a second step, or 0.
    pub second: u64,
    pub reply: &'x str,
}

/// The reply to the request with this number.
pub fn printed_at<'x>(text: &'x str, number: u64) -> Option<Printed<'x>> {
    for line in text.lines() {
        if let Some(printed) = printed_in(line, number) {
            return Some(printed);
        }
    }
    None
}

/// The reply in a line, if it is to the request with this number. The lines of messages begin with a letter.
fn printed_in<'x>(line: &'x str, number: u64) -> Option<Printed<'x>> {
    let (own, rest) = line.split_once(' ')?;
    if own.parse::<u64>() != Ok(number) {
        return None;
    }
    let (places, reply) = rest.split_once(' ')?;
    let (first, second) = match places.split_once(',') {
        Some((first, second)) => (first, second),
        None => (places, "0"),
    };
    Some(Printed {
        first: first.parse().ok()?,
        second: second.parse().ok()?,
        reply,
    })
}
