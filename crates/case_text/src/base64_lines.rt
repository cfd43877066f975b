// Base64 text in lines.
use base64::engine::general_purpose::STANDARD;
use mdbox_base::NoMemory;
use std::alloc::Global;

/// The padded base64 text of octets (RFC 4648), in lines of so many characters, with CR LF between two of them.
pub fn base64_lines(alloc: Global, octets: &[u8], width: usize) -> Result<Vec<u8>, NoMemory> {
    let text = STANDARD.encode(alloc, octets)?;
    let mut lines = Vec::new(alloc);
    let mut first = true;
    for line in text.as_bytes().chunks(width.max(1)) {
        if !first {
            lines.extend_from_slice(b"\r\n")?;
        }
        lines.extend_from_slice(line)?;
        first = false;
    }
    Ok(lines)
}
