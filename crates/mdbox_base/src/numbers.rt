// Numbers as text.
ghost use Rattle.std.specs.Prelude.{◌≡◌, ◌≢◌, ◌≤◌, ◌<◌, ◌^◌, ◌++◌, ◌↔◌, ℕ, IsTrue, length, slice_index, false, drop, IfSome, IfNone, OnOk, OnErr};
ghost use Rattle.std.specs.Fmt.{digits, digit_glyph};
ghost use Rattle.mdbox_base.specs.Numbers.{hex_digit_value, IsHex, hex_text, decimal_text};

use crate::memory::NoMemory;
use crate::octets::Octets;

/// The number that 1 to 16 hexadecimal digits of either case spell; zeros may lead.
pub fn read_hex(text: &[u8]) -> Option<u64>
    ensures some { IfSome result (λ value. IsHex 16 text.now value) }
    ensures none { IfNone result ((value : ℕ) → IsHex 16 text.now value → ⊥) }
{
    if text.is_empty() || text.len() > 16 {
        return None;
    }
    let mut value = 0;
    for digit in text {
        value = 16 * value + u64::from(hex_digit(*digit)?);
    }
    Some(value)
}

/// The number below 2^64 that these decimal digits spell, where none is a leading zero.
pub fn read_decimal(text: &[u8]) -> Option<u64>
    ensures some { IfSome result (λ value. text.now ≡ decimal_text value) }
    ensures none { IfNone result ((value : ℕ) → value < 2 ^ 64 → text.now ≢ decimal_text value) }
{
    if has_sign(text) || has_leading_zero(text) {
        return None;
    }
    match str::from_utf8(text) {
        Ok(digits) => digits.parse().ok(),
        Err(_) => None,
    }
}

/// Whether a plus sign stands first.
fn has_sign(text: &[u8]) -> bool
    ensures { IsTrue result ↔ (slice_index text.now 0 ≡ 43) }
{
    !text.is_empty() && text[0] == b'+'
}

/// Whether a zero stands before other octets.
fn has_leading_zero(text: &[u8]) -> bool
    ensures { IsTrue result ↔ ((slice_index text.now 0 ≡ 48) × (2 ≤ length text.now)) }
{
    text.len() > 1 && text[0] == b'0'
}

/// Appends the lower-case hexadecimal digits of a number. Without memory nothing is appended.
pub fn push_hex(out: &mut Octets, value: u64) -> Result<(), NoMemory>
    ensures ok { OnOk result (out.new ≡ out.old ++ hex_text value) }
    ensures err { OnErr result (out.new ≡ out.old) }
{
    push_digits(out, value, 16)
}

/// Appends the decimal digits of a number. Without memory nothing is appended.
pub fn push_decimal(out: &mut Octets, value: u64) -> Result<(), NoMemory>
    ensures ok { OnOk result (out.new ≡ out.old ++ decimal_text value) }
    ensures err { OnErr result (out.new ≡ out.old) }
{
    push_digits(out, value, 10)
}

/// The value of a hexadecimal digit.
fn hex_digit(octet: u8) -> Option<u8>
    ensures value { result ≡ hex_digit_value octet }
    ensures small { IfSome result (λ digit. digit < 16) }
{
    match octet {
        b'0'..=b'9' => Some(octet - b'0'),
        b'a'..=b'f' => Some(octet - 87),
        b'A'..=b'F' => Some(octet - 55),
        _ => None,
    }
}

/// The character of a digit below 16.
fn glyph(digit: u64) -> u8
    requires { digit < 16 }
    ensures { result ≡ digit_glyph false digit }
{
    if digit < 10 {
        b'0' + digit as u8
    } else {
        87 + digit as u8
    }
}

/// Appends the digits of a number in a base from 10 to 16: 20 at most, made from the last to the first.
fn push_digits(out: &mut Octets, value: u64, base: u64) -> Result<(), NoMemory>
    requires low { 10 ≤ base }
    requires high { base ≤ 16 }
    ensures ok { OnOk result (out.new ≡ out.old ++ digits base false value) }
    ensures err { OnErr result (out.new ≡ out.old) }
{
    let mut text = [0; 20];
    let start = write_digits(&mut text, value, base);
    out.push_all(&text[start..])
}

/// Writes the digits at the end of a text, and says where they begin.
fn write_digits(text: &mut [u8; 20], value: u64, base: u64) -> usize
    requires low { 10 ≤ base }
    requires high { base ≤ 16 }
    ensures within { result ≤ 20 }
    ensures written { drop result text.new ≡ digits base false value }
{
    let mut start = 19;
    let mut rest = value;
    while rest >= base {
        text[start] = glyph(rest % base);
        rest /= base;
        start -= 1;
    }
    text[start] = glyph(rest);
    start
}
