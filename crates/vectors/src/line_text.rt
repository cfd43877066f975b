// Lines as cases want them.
use mdbox_base::NoMemory;
use std::fmt::Write;

/// Adds a line.
pub fn push_line(out: &mut String, text: &str) -> Result<(), NoMemory> {
    out.push_str(". ")?;
    out.push_str(text)?;
    out.push_str("\n")?;
    Ok(())
}

/// How many octets are told at the most.
const MOST: usize = 1_000;

/// Adds a line with octets after a word: their text, if it is visible, or else their hexadecimal digits, of many their number.
pub fn push_octets(out: &mut String, word: &str, octets: &[u8]) -> Result<(), NoMemory> {
    out.push_str(". ")?;
    out.push_str(word)?;
    push_told(out, octets)?;
    out.push_str("\n")?;
    Ok(())
}

fn push_told(out: &mut String, octets: &[u8]) -> Result<(), NoMemory> {
    let count = octets.len();
    match str::from_utf8(octets) {
        _ if count > MOST => {
            write!(out, "{count} octets")?;
            Ok(())
        }
        Ok(text) if is_visible(octets) => {
            out.push_str(text)?;
            Ok(())
        }
        _ => push_digits(out, octets),
    }
}

fn is_visible(octets: &[u8]) -> bool {
    for octet in octets {
        if !matches!(*octet, b' '..=b'~') {
            return false;
        }
    }
    true
}

const DIGITS: [&str; 16] = [
    "0", "1", "2", "3", "4", "5", "6", "7", "8", "9", "a", "b", "c", "d", "e", "f",
];

/// Adds the hexadecimal digits of octets.
pub fn push_digits(out: &mut String, octets: &[u8]) -> Result<(), NoMemory> {
    for octet in octets {
        out.push_str(DIGITS[(*octet / 16) as usize])?;
        out.push_str(DIGITS[(*octet % 16) as usize])?;
    }
    Ok(())
}
