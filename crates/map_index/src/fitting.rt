// What an entry of the map log needs of its numbers, its instances and the mailboxes that there are.
ghost use Rattle.std.specs.Prelude.{◌≢◌, ◌+◌, ◌≤◌, ◌↔◌, IsTrue, All, AllPairs};
ghost use Rattle.model_meaning.specs.MapFits.{IsRaised, AgreesOn};
ghost use Rattle.mdbox_base.specs.Words.{IsNumber};

use crate::rows::Mailbox;
use mdbox_base::{InstRow, LAST_NUMBER};

/// Where a region ends at the latest.
const LAST_END: u64 = 4_294_967_295;

/// Whether this is a number of a storage file, a mailbox, a record or a generation.
pub fn is_number(number: u32) -> bool
    ensures { IsTrue result ↔ IsNumber number }
{
    1 <= number && number <= LAST_NUMBER
}

/// Whether a highest number may become this.
pub fn is_raised(present: u32, number: u32) -> bool
    ensures { IsTrue result ↔ IsRaised present number }
{
    present <= number && number <= LAST_NUMBER
}

/// Whether a region of this size ends in range.
pub fn ends(offset: u32, size: u32) -> bool
    ensures { IsTrue result ↔ (offset + size ≤ 4294967295) }
{
    offset as u64 + size as u64 <= LAST_END
}

/// Whether no mailbox has this name.
pub fn is_new_name(boxes: &[Mailbox], name: &[u8]) -> bool
    ensures { IsTrue result ↔ All (λ b. b.name ≢ name.now) boxes.now }
{
    boxes.iter().all(|mailbox| mailbox.name.as_octets() != name)
}

/// Whether instances of one id have one hash and one size, wherever the list names them.
pub fn agree_among(instances: &[InstRow]) -> bool
    ensures { IsTrue result ↔ AllPairs AgreesOn instances.now }
{
    let mut rest = instances;
    while let Some((first, behind)) = rest.split_first() {
        if !agrees(first, behind) {
            return false;
        }
        rest = behind;
    }
    true
}

fn agrees(instance: &InstRow, others: &[InstRow]) -> bool
    ensures { IsTrue result ↔ All (AgreesOn instance.now) others.now }
{
    others.iter().all(|other| agree_on(instance, other))
}

/// Whether two namings of one instance have one hash and one size.
fn agree_on(a: &InstRow, b: &InstRow) -> bool
    ensures { IsTrue result ↔ AgreesOn a.now b.now }
{
    a.id != b.id || (a.hash == b.hash && a.size == b.size)
}
