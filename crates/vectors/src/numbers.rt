// Numbers as text.
use crate::line_text::{push_line, push_octets};
use mdbox_base::{
    NoMemory, Octets, push_decimal, push_hex, read_decimal, read_hex, read_lower_hex,
};
use std::alloc::Global;

/// The number that a decimal text is read as, as it is written.
pub fn tell_decimal(alloc: Global, out: &mut String, octets: &[u8]) -> Result<(), NoMemory> {
    let Some(number) = read_decimal(octets) else {
        return push_line(out, "none");
    };
    let mut text = Octets::empty(alloc);
    push_decimal(&mut text, number)?;
    push_octets(out, "", text.as_slice())
}

/// The number that a hexadecimal text is read as, as it is written.
pub fn tell_hex(alloc: Global, out: &mut String, octets: &[u8]) -> Result<(), NoMemory> {
    let Some(number) = read_hex(octets) else {
        return push_line(out, "none");
    };
    let mut text = Octets::empty(alloc);
    push_hex(&mut text, number)?;
    push_octets(out, "", text.as_slice())
}

/// The two octets that lower digits say.
pub fn tell_lower(alloc: Global, out: &mut String, octets: &[u8]) -> Result<(), NoMemory> {
    let Some(pair) = read_lower_hex::<2>(octets) else {
        return push_line(out, "none");
    };
    let (first, second) = (pair[0], pair[1]);
    let text = format!(in alloc; "{first} {second}")?;
    push_line(out, text.as_str())
}
