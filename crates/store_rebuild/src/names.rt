// The mailboxes that taken messages go to.
ghost use Rattle.std.specs.Prelude.{◌≡◌, ◌≤◌, List, length, map, codes, IfOk};
ghost use Rattle.std.specs.List.{list_any};
ghost use Rattle.std.specs.Str.{bytes_eq};
ghost use Rattle.mdbox_base.specs.Words.{IsName};
ghost use Rattle.model_taken.specs.Taken.{TakenMessage, and_name, mailboxes_met};
ghost use Rattle.rebuild_judge.specs.Kept.{taken_row};

use mdbox_base::{Name, NoMemory, name_of};
use rebuild_judge::TakenRow;
use std::alloc::Global;

/// How many mailboxes can be numbered.
const MAILBOXES: usize = 4_294_967_294;

/// The names of the mailboxes: INBOX, and those of the messages, in the order in which they are met.
pub fn names_met(alloc: Global, taken: &[TakenRow]) -> Result<Vec<Name>, NoMemory>
    ensures met { IfOk result (λ names. (messages : List TakenMessage) → taken.now ≡ map taken_row messages → names.items ≡ mailboxes_met messages) }
    ensures few { IfOk result (λ names. length names.items ≤ 4294967294) }
{
    let mut names = Vec::new(alloc);
    let inbox = copy_of(alloc, b"INBOX")?;
    names.push(inbox)?;
    let mut rest = taken;
    while let Some((row, others)) = rest.split_first() {
        names = with_name(alloc, names, row.mailbox.as_octets())?;
        rest = others;
    }
    Ok(names)
}

/// The names, with one more unless it is among them.
fn with_name(alloc: Global, names: Vec<Name>, name: &[u8]) -> Result<Vec<Name>, NoMemory>
    requires name { IsName name.now }
    requires few { length names.items ≤ 4294967294 }
    ensures names { IfOk result (λ new. new.items ≡ and_name names.items name.now) }
    ensures few { IfOk result (λ new. length new.items ≤ 4294967294) }
{
    if is_among(&names, name) {
        return Ok(names);
    }
    if names.len() >= MAILBOXES {
        return Err(NoMemory);
    }
    let mut new = names;
    let name = copy_of(alloc, name)?;
    new.push(name)?;
    Ok(new)
}

/// Whether a name is among these.
fn is_among(names: &[Name], name: &[u8]) -> bool
    ensures { result ≡ list_any (bytes_eq name.now) names.now }
{
    names.iter().any(|other| name == other.as_octets())
}

/// The name with these octets.
pub fn copy_of(alloc: Global, octets: &[u8]) -> Result<Name, NoMemory>
    requires { IsName octets.now }
    ensures { IfOk result (λ name. name ≡ octets.now) }
{
    let Some(name) = name_of(alloc, octets)? else {
        unreachable!()
    };
    Ok(name)
}
