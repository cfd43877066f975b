// Hexadecimal digits, written in their place.
ghost use Rattle.std.specs.Prelude.{◌≡◌, ◌≤◌, ◌+◌, ◌++◌, ℕ, List, length};
ghost use Rattle.hex.specs.Hex.{encode_lower};
ghost use Rattle.saved_message.specs.Laid.{AreSixteen};

use hex::encode_to_slice;

/// How many digits a GUID or an id of an instance has.
pub const DIGITS: usize = 32;

/// Writes the digits of sixteen octets at this place of a text.
pub fn put_digits(text: &mut [u8], at: usize, octets: [u8; 16])
    requires { at + 32 ≤ length text.old }
    ensures put { (front digits back : List ℕ) → text.old ≡ front ++ (digits ++ back) → at ≡ length front → length digits ≡ 32 → text.new ≡ front ++ (encode_lower octets ++ back) }
    ensures size { length text.new ≡ length text.old }
    ensures octets { AreSixteen octets }
{
    write_digits(&mut text[at..at + DIGITS], octets);
}

/// Writes the digits of sixteen octets, where there is room for exactly these.
fn write_digits(into: &mut [u8], octets: [u8; 16])
    requires { length into.old ≡ 32 }
    ensures { into.new ≡ encode_lower octets }
{
    let _ = encode_to_slice(&octets[..], into);
}
