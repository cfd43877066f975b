// The header line of a storage file.
ghost use Rattle.std.specs.Prelude.{◌≡◌, ◌≤◌, length, IfOk};
ghost use Rattle.scan_pieces.specs.Pieces.{HeaderGives};

use dbox_file::{ScanError, scan};
use memchr::memchr;
use std::alloc::Global;

/// How many octets a header line may have, its LF included.
const LONGEST: usize = 512;

/// The length of the header line at the beginning of a text. The line alone is read as a storage file without messages.
pub fn header_in(alloc: Global, text: &[u8]) -> Result<u64, ScanError>
    ensures gives { HeaderGives text.now result }
    ensures within { IfOk result (λ n. n ≤ length text.now) }
{
    let window = &text[..text.len().min(LONGEST)];
    let Some(end) = memchr(b'\n', window) else {
        return Err(ScanError::BadHeader);
    };
    scan(alloc, &window[..end + 1])?;
    Ok(end as u64 + 1)
}
