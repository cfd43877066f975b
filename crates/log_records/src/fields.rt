// Fields of an entry, read from the front of a text and written to a place of one. Numbers are big-endian.
ghost use Rattle.std.specs.Prelude.{◌≡◌, ◌≢◌, ◌+◌, ◌<◌, ◌≤◌, ◌∷◌, ◌++◌, length, take, MatchOption};
ghost use Rattle.std.specs.Int.{w16, w64, to_be_bytes};
ghost use Rattle.model_logs.specs.Entries.{four};

use mdbox_base::Guid;

/// The octet in front, and what follows it.
pub fn octet_at(text: &[u8]) -> Option<(u8, &[u8])>
    ensures { MatchOption result (length text.now < 1) (λ found. (text.now ≡ found.0 ∷ found.1.now) × (length text.now ≡ 1 + length found.1.now)) }
{
    let (octet, rest) = text.split_first()?;
    Some((*octet, rest))
}

/// The number of two octets in front, and what follows it.
pub fn short_at(text: &[u8]) -> Option<(u16, &[u8])>
    ensures { MatchOption result (length text.now < 2) (λ found. (text.now ≡ to_be_bytes w16 found.0 ++ found.1.now) × (length text.now ≡ 2 + length found.1.now)) }
{
    let (number, rest) = text.split_first_chunk::<2>()?;
    Some((u16::from_be_bytes(*number), rest))
}

/// The number of four octets in front, and what follows it.
pub fn number_at(text: &[u8]) -> Option<(u32, &[u8])>
    ensures { MatchOption result (length text.now < 4) (λ found. (text.now ≡ four found.0 ++ found.1.now) × (length text.now ≡ 4 + length found.1.now)) }
{
    let (number, rest) = text.split_first_chunk::<4>()?;
    Some((u32::from_be_bytes(*number), rest))
}

/// The number of eight octets in front, and what follows it.
pub fn long_at(text: &[u8]) -> Option<(u64, &[u8])>
    ensures { MatchOption result (length text.now < 8) (λ found. (text.now ≡ to_be_bytes w64 found.0 ++ found.1.now) × (length text.now ≡ 8 + length found.1.now)) }
{
    let (number, rest) = text.split_first_chunk::<8>()?;
    Some((u64::from_be_bytes(*number), rest))
}

/// The octets of an id in front, and what follows it.
pub fn array_at<const N: usize>(text: &[u8]) -> Option<([u8; N], &[u8])>
    ensures { MatchOption result (length text.now < N) (λ found. (text.now ≡ found.0 ++ found.1.now) × (length found.0 ≡ N) × (length text.now ≡ N + length found.1.now)) }
{
    let (array, rest) = text.split_first_chunk::<N>()?;
    Some((*array, rest))
}

/// The number that is the whole text.
pub fn only_number(text: &[u8]) -> Option<u32>
    ensures { MatchOption result (length text.now ≢ 4) (λ number. text.now ≡ four number) }
{
    let (number, rest) = number_at(text)?;
    if rest.is_empty() { Some(number) } else { None }
}

/// The GUID that is the whole text.
pub fn only_guid(text: &[u8]) -> Option<Guid>
    ensures { MatchOption result (length text.now ≢ 16) (λ guid. (text.now ≡ guid.0) × (length guid.0 ≡ 16)) }
{
    let (guid, rest) = text.split_first_chunk::<16>()?;
    if rest.is_empty() {
        Some(Guid(*guid))
    } else {
        None
    }
}

/// Writes a field, and answers the place behind it.
pub fn put(into: &mut [u8], place: usize, field: &[u8]) -> usize
    requires { place + length field.now ≤ length into.old }
    ensures behind { result ≡ place + length field.now }
    ensures front { take result into.new ≡ take place into.old ++ field.now }
    ensures length { length into.new ≡ length into.old }
{
    let end = place + field.len();
    into[place..end].copy_from_slice(field);
    end
}
