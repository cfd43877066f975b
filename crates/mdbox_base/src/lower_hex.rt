// Octets as lower-case hexadecimal digits.
ghost use Rattle.std.specs.Prelude.{◌≡◌, ◌≢◌, ℕ, List, length, IfSome, IfNone};
ghost use Rattle.std.specs.List.{list_any};
ghost use Rattle.std.specs.Char.{is_ascii_uppercase};
ghost use Rattle.hex.specs.Hex.{encode_lower};
ghost use Rattle.mdbox_base.specs.Words.{IsOctets};

use hex::FromHex;

/// The octets that these lower-case hexadecimal digits name, two digits an octet.
pub fn read_lower_hex<const N: usize>(text: &[u8]) -> Option<[u8; N]>
    ensures some { IfSome result (λ octets. (length octets ≡ N) × IsOctets octets × (text.now ≡ encode_lower octets)) }
    ensures none { IfNone result ((octets : List ℕ) → length octets ≡ N → IsOctets octets → text.now ≢ encode_lower octets) }
{
    let octets = <[u8; N]>::from_hex(text).ok()?;
    if has_capital(text) {
        return None;
    }
    Some(octets)
}

/// Whether a capital stands in a text.
fn has_capital(text: &[u8]) -> bool
    ensures { result ≡ list_any is_ascii_uppercase text.now }
{
    text.iter().any(|octet| octet.is_ascii_uppercase())
}
