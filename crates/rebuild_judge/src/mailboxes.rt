// The mailboxes that taken messages go to.
ghost use Rattle.std.specs.Prelude.{◌≡◌, codes, false, position, IfOk, OnOk};
ghost use Rattle.std.specs.Str.{bytes_eq};
ghost use Rattle.rebuild_judge.specs.Kept.{are_full, with_one_more};

use mdbox_base::{Name, NoMemory, name_of};
use std::alloc::Global;

/// How many mailboxes a store has at most.
const MAILBOXES: usize = 1024;
/// How many messages a mailbox of a rebuilt store has at most.
const MESSAGES: u64 = 1_000_000;

/// A mailbox that is met, and how many taken messages go to it.
#[derive(Drop)]
pub struct MetMailbox {
    pub name: Name,
    pub count: u64,
}

/// The name of the mailbox to which messages go whose lines name none.
pub fn inbox(alloc: Global) -> Result<Name, NoMemory>
    ensures { IfOk result (λ name. name ≡ codes "INBOX") }
{
    let Some(name) = name_of(alloc, b"INBOX")? else {
        unreachable!()
    };
    Ok(name)
}

/// The same name again.
fn copy_of(alloc: Global, name: &Name) -> Result<Name, NoMemory>
    ensures { IfOk result (λ copy. copy ≡ name.now) }
{
    let Some(copy) = name_of(alloc, name.as_octets())? else {
        unreachable!()
    };
    Ok(copy)
}

/// Whether no further message can go to the mailbox with this name.
pub fn are_full(mailboxes: &[MetMailbox], name: &Name) -> bool
    ensures { result ≡ are_full name.now mailboxes.now }
{
    match place_of(mailboxes, name) {
        Some(place) => mailboxes[place].count >= MESSAGES,
        None => mailboxes.len() >= MAILBOXES,
    }
}

/// The place of the mailbox with this name.
fn place_of(mailboxes: &[MetMailbox], name: &Name) -> Option<usize>
    ensures { result ≡ position (λ m. bytes_eq m.name name.now) mailboxes.now }
{
    mailboxes
        .iter()
        .position(|mailbox| mailbox.name.as_octets() == name.as_octets())
}

/// One message more goes to the mailbox with this name.
pub fn add_one(alloc: Global, mailboxes: &mut Vec<MetMailbox>, name: &Name) -> Result<(), NoMemory>
    ensures { OnOk result (are_full name.now mailboxes.old.items ≡ false → mailboxes.new.items ≡ with_one_more name.now mailboxes.old.items) }
{
    if let Some(place) = place_of(mailboxes, name) {
        mailboxes[place].count = mailboxes[place].count.saturating_add(1);
        return Ok(());
    }
    let name = copy_of(alloc, name)?;
    mailboxes.push(MetMailbox { name, count: 1 })?;
    Ok(())
}
