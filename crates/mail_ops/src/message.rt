// Where a message is listed.
ghost use Rattle.std.specs.Prelude.{◌≡◌, Some, None, IfNone, IfOk, IfErr, IfSome};
ghost use Rattle.box_index.specs.Row.{row_of};
ghost use Rattle.mail_ops.specs.Messages.{IsRowIn, IsRowOf, missing_message, row_numbered};

use box_index::BoxRow;
use disk_model::Disk;
use mdbox_base::{BoxNo, Name, Refusal, Uid};
use store_core::Store;

/// The number of the mailbox with this name, and its row with this UID.
pub(crate) fn find_message<'a, D: Disk>(
    store: &'a Store<D>,
    name: &Name,
    uid: Uid,
) -> Result<(BoxNo, &'a BoxRow), Refusal>
    ensures found { IfOk result (λ at. IsRowOf name.now uid.0 store.now at.0.0 (row_of at.1.now)) }
    ensures there { IfOk result (λ at. missing_message name.now uid.0 store.now ≡ None) }
    ensures refused { IfErr result (λ why. missing_message name.now uid.0 store.now ≡ Some why) }
{
    let Some(index) = store.list_of(name) else {
        return Err(Refusal::NoMailbox);
    };
    let Some(row) = index.find(uid) else {
        return Err(Refusal::NoMessage);
    };
    let Some(number) = store.number_of(name) else {
        unreachable!()
    };
    Ok((number, row))
}

/// The row with this UID of the mailbox with this number. None if the mailbox isn't there, or doesn't list the UID.
pub(crate) fn find_in<D: Disk>(store: &Store<D>, number: BoxNo, uid: Uid) -> Option<&BoxRow>
    ensures found { IfSome result (λ row. IsRowIn number.0 uid.0 store.now (row_of row.now)) }
    ensures none { IfNone result (row_numbered number.0 uid.0 store.now ≡ None) }
{
    let index = store.mailbox(number)?;
    let row = index.find(uid)?;
    Some(row)
}
