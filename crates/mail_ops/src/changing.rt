// Which mailbox may be deleted or renamed.
ghost use Rattle.std.specs.Prelude.{◌≡◌, Some, IfOk, IfErr};
ghost use Rattle.mail_ops.specs.Changing.{MayChangeBox, deleting_refusal};

use disk_model::Disk;
use mdbox_base::{BoxNo, Name, Refusal};
use store_core::Store;

/// The name of the mailbox that every store has.
const INBOX: &[u8] = b"INBOX";

/// The number of the mailbox with this name, if that may be deleted or renamed: it isn't INBOX.
pub(crate) fn may_change<D: Disk>(store: &Store<D>, name: &Name) -> Result<BoxNo, Refusal>
    ensures found { IfOk result (λ number. MayChangeBox name.now number.0 store.now) }
    ensures refused { IfErr result (λ why. deleting_refusal name.now store.now ≡ Some why) }
{
    let Some(_index) = store.list_of(name) else {
        return Err(Refusal::NoMailbox);
    };
    if name.as_octets() == INBOX {
        return Err(Refusal::Inbox);
    }
    let Some(number) = store.number_of(name) else {
        unreachable!()
    };
    Ok(number)
}
