// Listing a mailbox.
ghost use Rattle.std.specs.Prelude.{◌≡◌, ◌⊎◌, ◌↔◌, map, Some, IfOk, true, ℕ};
ghost use Rattle.box_index.specs.Row.{row_of as shown};
ghost use Rattle.journal.specs.Events.{Around};
ghost use Rattle.mdbox_base.specs.declared.replies.Refusal.TheVariants as refusal;
ghost use Rattle.mdbox_base.specs.declared.replies.Reply.TheVariants as reply;
ghost use Rattle.mdbox_base.specs.declared.requests.Request.TheVariants as request;
ghost use Rattle.model_store.specs.Listing.{listed_row};
ghost use Rattle.task_steps.specs.Step.{HasNotBegun, Steps};
ghost use Rattle.mail_ops.specs.Listing.{listing_reply};
ghost use Rattle.store_seen.specs.Seeing.{seen_of};

use crate::laws::listings_are_answered;
use box_index::{BoxIndex, BoxRow};
use disk_model::Disk;
use mdbox_base::{Did, Half, ListRow, Name, NoMemory, Refusal, Reply, Seq};
use std::alloc::Global;
use store_core::Store;

/// Lists a mailbox, which changes nothing: the only event of its request.
pub fn list<D: Disk>(store: &Store<D>, name: &Name) -> (Reply, Did)
    ensures does { (around after : Around) (pins : ℕ → ℕ) → Steps HasNotBegun HasNotBegun around after (request.List name.now) (seen_of pins store.now (D.history store.now.disk) (D.faults store.now.disk)) (seen_of pins store.now (D.history store.now.disk) (D.faults store.now.disk)) result.1 (Some result.0) }
    ensures replies { (result.0 ≡ listing_reply name.now store.now) ⊎ (result.0 ≡ reply.Refused refusal.NoMemory) }
    ensures stopped { (result.0 ≡ reply.Refused refusal.Stopped) ↔ (store.now.stopped ≡ true) }
{
    listings_are_answered();
    if store.stopped() {
        return (Reply::Refused(Refusal::Stopped), Did::Quiet);
    }
    let Some(index) = store.list_of(name) else {
        return (Reply::Refused(Refusal::NoMailbox), Did::Step(Half::Whole));
    };
    match rows_of(store.alloc(), index) {
        Ok(rows) => (Reply::Listed(rows), Did::Step(Half::Whole)),
        Err(NoMemory) => (Reply::Refused(Refusal::NoMemory), Did::Quiet),
    }
}

/// The rows of a listing, in UID order.
fn rows_of(alloc: Global, index: &BoxIndex) -> Result<Seq<ListRow>, NoMemory>
    ensures { IfOk result (λ rows. rows ≡ map listed_row index.now.meaning.rows) }
{
    let mut rows = Vec::with_capacity(alloc, index.length() as usize)?;
    for row in index.rows() {
        rows.push(row_of(alloc, row)?)?;
    }
    Ok(Seq::of(rows))
}

/// The row that lists a message, with a copy of its keywords.
fn row_of(alloc: Global, row: &BoxRow) -> Result<ListRow, NoMemory>
    ensures { IfOk result (λ listed. listed ≡ listed_row (shown row.now)) }
{
    Ok(ListRow {
        uid: row.uid,
        flags: row.flags,
        size: row.size,
        time: row.time,
        guid: row.guid,
        words: row.words.copied(alloc)?,
    })
}
