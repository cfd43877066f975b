// The first entries of a new store's logs.
ghost use Rattle.std.specs.Prelude.{◌≡◌, IfOk};
ghost use Rattle.model_logs.specs.Entries.{map_text, root_text};
ghost use Rattle.model_store.specs.Opening.{first_root, first_box};

use log_records::{push_map_entry, push_root_entry};
use mdbox_base::{BoxNo, MapEntry, NoMemory, Octets, RootEntry, name_of};
use std::alloc::Global;

/// The map log's first entry: mailbox 1, INBOX, whose log has generation 1.
pub fn inbox(alloc: Global) -> Result<MapEntry, NoMemory>
    ensures { IfOk result (λ entry. entry ≡ first_box) }
{
    let Some(name) = name_of(alloc, b"INBOX")? else {
        unreachable!()
    };
    Ok(MapEntry::B {
        mailbox: BoxNo(1),
        generation: 1,
        name,
    })
}

/// The text of that entry.
pub fn inbox_entry(alloc: Global) -> Result<Octets, NoMemory>
    ensures { IfOk result (λ text. text ≡ map_text first_box) }
{
    let entry = inbox(alloc)?;
    let mut text = Octets::empty(alloc);
    push_map_entry(alloc, &mut text, &entry)?;
    Ok(text)
}

/// The text of the root log's first entry: the map log of generation 1.
pub fn map_log_entry(alloc: Global) -> Result<Octets, NoMemory>
    ensures { IfOk result (λ text. text ≡ root_text first_root) }
{
    let mut text = Octets::empty(alloc);
    push_root_entry(&mut text, &RootEntry::M { generation: 1 })?;
    Ok(text)
}
