// Records of a log.
ghost use Rattle.std.specs.Prelude.{◌≡◌, MatchOption};
ghost use Rattle.model_logs.specs.LogFile.{BeginsRecord};

/// The entry of the record that octets begin with. None if and only if no whole record with a gate stands there.
pub fn first_entry(octets: &[u8]) -> Option<&[u8]>
    ensures { MatchOption result (BeginsRecord octets.now → ⊥) (λ entry. (whole : BeginsRecord octets.now) × (whole.entry ≡ entry.now)) }
{
    let (size, behind) = octets.split_first_chunk::<4>()?;
    let size = u32::from_be_bytes(*size) as usize;
    if size == 0 || behind.len() <= size {
        return None;
    }
    Some(&behind[..size])
}
