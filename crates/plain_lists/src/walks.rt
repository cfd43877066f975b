// Walks over vectors.
ghost use Rattle.std.specs.Prelude.{◌≡◌, ◌≤◌, ◌==◌, ◌^◌, ◌-◌, ℕ, min, List, length, map, position, count_by, IfOk};
ghost use Rattle.std.specs.Str.{bytes_eq};
ghost use Rattle.model_lists.specs.Lists.{refs_of, listing_row};
ghost use Rattle.list_machine.specs.Machine.{has_name, has_number, is_message_of_uid};
ghost use Rattle.plain_lists.specs.View.{message_of, mailbox_of};

use crate::lists::{PlainMailbox, PlainMessage};
use mdbox_base::{BoxNo, Guid, ListRow, Name, NoMemory, Seq, Uid};
use std::alloc::Global;

/// The place of the mailbox with this name.
pub fn place_of_mailbox(mailboxes: &[PlainMailbox], name: &Name) -> Option<usize>
    ensures { result ≡ position (λ m. has_name name.now (mailbox_of m)) mailboxes.now }
{
    let text = name.as_octets();
    mailboxes.iter().position(|m| m.name.as_octets() == text)
}

/// The place of the mailbox with this number.
pub fn place_of_number(mailboxes: &[PlainMailbox], number: BoxNo) -> Option<usize>
    ensures { result ≡ position (λ m. has_number number.0 (mailbox_of m)) mailboxes.now }
{
    mailboxes.iter().position(|m| m.number.0 == number.0)
}

/// The place of the message with this UID.
pub fn place_of_message(messages: &[PlainMessage], uid: Uid) -> Option<usize>
    ensures { result ≡ position (λ m. is_message_of_uid uid.0 (message_of m)) messages.now }
{
    messages.iter().position(|m| m.uid.0 == uid.0)
}

/// The rows of a listing.
pub fn rows_of(alloc: Global, messages: &[PlainMessage]) -> Result<Seq<ListRow>, NoMemory>
    ensures { IfOk result (λ rows. rows ≡ map listing_row (map message_of messages.now)) }
{
    let mut rows = Seq::empty(alloc);
    for message in messages {
        rows.push(ListRow {
            uid: message.uid,
            flags: message.flags,
            size: message.octets.length() as u32,
            time: message.time,
            guid: message.guid,
            words: message.words.copied(alloc)?,
        })?;
    }
    Ok(rows)
}

/// How many of these messages have this GUID.
pub fn count_of_guid(messages: &[PlainMessage], guid: Guid) -> usize
    ensures { result ≡ count_by (λ m. bytes_eq m.guid guid.0) (map message_of messages.now) }
{
    messages.iter().filter(|m| m.guid.0 == guid.0).count()
}

/// How many messages have this GUID, or the greatest `usize` where there are more.
pub fn references(mailboxes: &[PlainMailbox], guid: Guid) -> usize
    ensures { result ≡ min (refs_of (map mailbox_of mailboxes.now) guid.0) (2 ^ 64 - 1) }
{
    let mut references: usize = 0;
    for mailbox in mailboxes {
        references = references.saturating_add(count_of_guid(&mailbox.messages, guid));
    }
    references
}
