// A line for each of some numbers.
use mdbox_base::NoMemory;
use std::alloc::Global;

/// A line that is done for each number from a first one to a last one.
#[derive(Clone, Copy)]
pub struct Numbered<'x> {
    pub first: u64,
    pub last: u64,
    line: &'x str,
}

impl<'x> Numbered<'x> {
    /// The first number, the last one, and the line. None if this isn't written so.
    pub fn read(text: &'x str) -> Option<Numbered<'x>> {
        let (first, rest) = text.split_once(' ')?;
        let (last, line) = rest.split_once(' ')?;
        Some(Numbered {
            first: first.parse::<u64>().ok()?,
            last: last.parse::<u64>().ok()?,
            line,
        })
    }

    /// The line with this number: in decimal for each `#`, and in eight hexadecimal digits for each `##`.
    pub fn line_at(&self, alloc: Global, number: u64) -> Result<String, NoMemory> {
        let decimal = format!(in alloc; "{number}")?;
        let digits = format!(in alloc; "{number:08x}")?;
        let mut line = String::new(alloc);
        let mut first = true;
        for piece in self.line.split("##") {
            if !first {
                line.push_str(digits.as_str())?;
            }
            push_piece(&mut line, piece, decimal.as_str())?;
            first = false;
        }
        Ok(line)
    }
}

/// Adds a piece of a line, with this text in the place of each `#`.
fn push_piece(line: &mut String, piece: &str, decimal: &str) -> Result<(), NoMemory> {
    let mut first = true;
    for text in piece.split('#') {
        if !first {
            line.push_str(decimal)?;
        }
        line.push_str(text)?;
        first = false;
    }
    Ok(())
}
