// Mailboxes of the map and sealed files in vectors, with their look-ups.
ghost use Rattle.std.specs.Prelude.{◌≡◌, ◌<◌, ◌==◌, AllPairs, find};
ghost use Rattle.std.specs.Option.{option_copied};
ghost use Rattle.std.specs.List.{list_any, position_or_len};
ghost use Rattle.std.specs.Str.{bytes_eq};

use mdbox_base::{BoxNo, FileNo, Name};

/// A mailbox of the map: its log is the one of this number and generation.
#[derive(Clone, Copy, Debug, PartialEq, Eq)]
pub struct BoxAt {
    pub number: BoxNo,
    pub generation: u32,
}

/// A mailbox with its name.
#[derive(Drop)]
pub struct Mailbox {
    pub at: BoxAt,
    pub name: Name,
}

impl Mailbox {
    /// The mailbox with this number, generation and name.
    pub fn of(number: BoxNo, generation: u32, name: Name) -> Mailbox
        ensures { result ≡ record { at = record { number = number; generation = generation }; name = name } }
    {
        let at = BoxAt { number, generation };
        Mailbox { at, name }
    }
}

/// The place of the mailbox with this number, by search; else how many mailboxes there are.
pub fn place_with_number(boxes: &[Mailbox], number: BoxNo) -> usize
    requires { AllPairs (λ a b. a.at.number.0 < b.at.number.0) boxes.now }
    ensures { result ≡ position_or_len (λ b. b.at.number.0 == number.0) boxes.now }
{
    match boxes.binary_search_by_key(&number.0, |mailbox| mailbox.at.number.0) {
        Ok(place) => place,
        Err(_) => boxes.len(),
    }
}

/// The mailbox with this number, by search.
pub fn with_number(boxes: &[Mailbox], number: BoxNo) -> Option<&Mailbox>
    requires { AllPairs (λ a b. a.at.number.0 < b.at.number.0) boxes.now }
    ensures { option_copied result ≡ find (λ b. b.at.number.0 == number.0) boxes.now }
{
    let place = place_with_number(boxes, number);
    if place < boxes.len() {
        Some(&boxes[place])
    } else {
        None
    }
}

/// The first mailbox with this name.
pub fn with_name<'a>(boxes: &'a [Mailbox], name: &[u8]) -> Option<&'a Mailbox>
    ensures { option_copied result ≡ find (λ b. bytes_eq b.name name.now) boxes.now }
{
    boxes
        .iter()
        .find(|mailbox| mailbox.name.as_octets() == name)
}

/// Whether the file is among these, by search.
pub fn has_file(files: &[FileNo], file: FileNo) -> bool
    requires { AllPairs (λ a b. a.0 < b.0) files.now }
    ensures { result ≡ list_any (λ f. f.0 == file.0) files.now }
{
    files.binary_search_by_key(&file.0, |other| other.0).is_ok()
}
