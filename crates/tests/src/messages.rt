// Messages of parts, for tests.
use mdbox_base::{NoMemory, Octets};
use std::alloc::Global;

/// What stands after the first line of each message, up to its parts.
const HEADER: &[u8] =
    b"MIME-Version: 1.0\r\nContent-Type: multipart/mixed; boundary=\"b1\"\r\n\r\n";

/// So many times this letter.
pub fn letters(alloc: Global, letter: u8, count: usize) -> Result<Vec<u8>, NoMemory> {
    let mut text = Vec::new(alloc);
    text.resize(count, letter)?;
    Ok(text)
}

/// What stands before each part of a message of parts.
const PART: &[u8] = b"--b1\r\nContent-Type: application/octet-stream\r\n\r\n";

/// A message of these parts, each of which is a text of no coding. The first begins at 136.
pub fn with_parts(alloc: Global, parts: &[&[u8]]) -> Result<Octets, NoMemory> {
    let mut message = Octets::empty(alloc);
    message.push_all(b"From: a@example.org\r\n")?;
    message.push_all(HEADER)?;
    for part in parts {
        message.push_all(PART)?;
        message.push_all(part)?;
        message.push_all(b"\r\n")?;
    }
    message.push_all(b"--b1--\r\n")?;
    Ok(message)
}
