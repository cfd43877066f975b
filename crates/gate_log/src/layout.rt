// Records as they are laid out before they are written.
ghost use Rattle.std.specs.Prelude.{◌≡◌, ◌+◌, ◌*◌, ◌<◌, ◌≤◌, ◌^◌, ◌++◌, ◌∷◌, [], length, take, sum};
ghost use Rattle.model_logs.specs.LogFile.{record_octets, opened};
ghost use Rattle.gate_log.specs.Log.{cut_by};

use crate::gate::{CLOSED, OPEN};

/// Lays out a record for each entry, with an open gate between each two of them and a closed one behind the last. The
/// entries, of these lengths, stand one behind another in `octets`. Answers how many octets were laid out.
pub fn lay_out(buffer: &mut [u8], octets: &[u8], lengths: &[u32]) -> usize
    requires some { 1 ≤ length lengths.now }
    requires whole { sum lengths.now ≡ length octets.now }
    requires short { length octets.now < 2 ^ 32 }
    requires room { length octets.now + 5 * length lengths.now ≤ length buffer.old }
    ensures size { result ≡ length octets.now + 5 * length lengths.now }
    ensures laid { 1 ∷ take result buffer.new ≡ opened (cut_by lengths.now octets.now) ++ 0 ∷ [] }
{
    let mut rest = octets;
    let mut end = 0;
    for size in lengths {
        let (entry, behind) = rest.split_at(*size as usize);
        put_record(&mut buffer[end..], entry);
        end += entry.len() + 5;
        rest = behind;
    }
    buffer[end - 1] = CLOSED;
    end
}

/// Puts a record and an open gate at the front of the buffer.
fn put_record(buffer: &mut [u8], entry: &[u8])
    requires short { length entry.now < 2 ^ 32 }
    requires room { length entry.now + 5 ≤ length buffer.old }
    ensures { take (length entry.now + 5) buffer.new ≡ record_octets entry.now ++ 1 ∷ [] }
{
    let end = entry.len() + 4;
    buffer[..4].copy_from_slice(&(entry.len() as u32).to_be_bytes());
    buffer[4..end].copy_from_slice(entry);
    buffer[end] = OPEN;
}
