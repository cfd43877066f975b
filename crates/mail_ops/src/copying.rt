// Copying a message: the events of a copy, and of the first half of a move.
ghost use Rattle.std.specs.Prelude.{◌≡◌, ◌≤◌, ◌<◌, length, Some, IfOk, IfErr, false};
ghost use Rattle.box_index.specs.Row.{row_of};
ghost use Rattle.store_core.specs.Dues.{due_at};
ghost use Rattle.store_core.specs.Keeping.{KeepsUid};
ghost use Rattle.task_claims.specs.Leaving.{number_named};
ghost use Rattle.mail_ops.specs.Copying.{CopyPlace, copy_refusal, room_refusal, RaisesRow, IsNotRaised, AddsUnless, IsNotAdded};

use crate::event::NotDone;
use crate::lowering::Lowering;
use box_index::{BoxIndex, BoxRow};
use disk_model::Disk;
use mdbox_base::{BoxEntry, BoxNo, MapEntry, MapUid, Name, Refusal, Uid};
use store_core::{StepError, Store};

/// How many messages a mailbox has at the most.
const MOST_MESSAGES: u32 = 1_000_000;

/// The greatest UID.
const LAST_UID: u64 = 4_294_967_294;

/// The greatest count of a record.
const MOST_COPIES: u16 = 65_535;

/// A message that can be copied: its row, the numbers of its mailbox and of its target, and the target's next UID.
#[derive(Clone, Copy)]
pub(crate) struct CopyAt<'a> {
    pub row: &'a BoxRow,
    pub source: BoxNo,
    pub target: BoxNo,
    pub next: Uid,
}

/// Finds a message and the mailbox that it is to be copied to, which has room for it.
fn find_copy<'a, D: Disk>(
    store: &'a Store<D>,
    name: &Name,
    uid: Uid,
    target: &Name,
) -> Result<CopyAt<'a>, Refusal>
    ensures found { IfOk result (λ at. CopyPlace name.now uid.0 target.now store.now (row_of at.row.now) at.target.0 at.next.0) }
    ensures source { IfOk result (λ at. number_named store.now.map name.now ≡ Some at.source.0) }
    ensures refused { IfErr result (λ why. copy_refusal name.now uid.0 target.now store.now ≡ Some why) }
{
    let Some(from) = store.list_of(name) else {
        return Err(Refusal::NoMailbox);
    };
    let Some(to) = store.list_of(target) else {
        return Err(Refusal::NoMailbox);
    };
    let Some(row) = from.find(uid) else {
        return Err(Refusal::NoMessage);
    };
    let next = match next_of(to) {
        Ok(uid) => uid,
        Err(why) => return Err(why),
    };
    let Some(source) = store.number_of(name) else {
        unreachable!()
    };
    let Some(number) = store.number_of(target) else {
        unreachable!()
    };
    Ok(CopyAt {
        row,
        source,
        target: number,
        next,
    })
}

/// The UID that a further message of a mailbox gets.
fn next_of(index: &BoxIndex) -> Result<Uid, Refusal>
    ensures found { IfOk result (λ uid. (uid.0 ≡ index.now.meaning.next) × (length index.now.meaning.rows < 1000000) × (uid.0 ≤ 4294967294)) }
    ensures refused { IfErr result (λ why. room_refusal index.now.meaning ≡ Some why) }
{
    index.known_facts();
    if index.length() >= MOST_MESSAGES {
        return Err(Refusal::MailboxFull(u64::from(MOST_MESSAGES)));
    }
    match index.next_uid() {
        Some(uid) => Ok(uid),
        None => Err(Refusal::StoreFull(LAST_UID)),
    }
}

/// Raises the count of a message that is to be copied, and hands out the entry that gives it back, and the number of its mailbox.
pub(crate) fn raise<D: Disk>(
    store: &mut Store<D>,
    name: &Name,
    uid: Uid,
    target: &Name,
) -> Result<(Lowering, BoxNo), NotDone>
    requires running { store.old.stopped ≡ false }
    ensures raised { IfOk result (λ done. RaisesRow name.now uid target.now done.0 done.1 store.old store.new (D.history store.old.disk) (D.history store.new.disk) (D.faults store.old.disk) (D.faults store.new.disk)) }
    ensures refused { IfErr result (λ error. IsNotRaised name.now uid target.now error store.old store.new (D.history store.old.disk) (D.history store.new.disk) (D.faults store.old.disk) (D.faults store.new.disk)) }
{
    store.facts();
    let CopyAt { row, source, .. } = find_copy(store, name, uid, target)?;
    if store.count_of(row.guid) >= MOST_COPIES {
        return Err(NotDone::Refused(Refusal::TooManyCopies(u64::from(MOST_COPIES))));
    }
    let raised = row.map_uid;
    let held = Lowering::of(store.alloc(), raised)?;
    match store.append_map(&MapEntry::U { uid: raised }) {
        Ok(()) => Ok((held, source)),
        Err(StepError::Stopped) => Err(NotDone::Stopped),
        Err(StepError::NoMemory) => unreachable!(),
    }
}

/// Adds the message, as it is listed now, to the target, by its record whose count was raised. It gets the target's next UID. Its
/// keywords are copied before, which takes memory. None if the source's name names another mailbox than the one with this number:
/// then nothing is added.
pub(crate) fn add<D: Disk>(
    store: &mut Store<D>,
    name: &Name,
    uid: Uid,
    target: &Name,
    held: MapUid,
    source: BoxNo,
) -> Result<Option<Uid>, NotDone>
    requires running { store.old.stopped ≡ false }
    requires due { 1 ≤ due_at held.0 store.old }
    requires keeps { KeepsUid source.0 uid.0 held.0 store.old }
    ensures added { IfOk result (λ given. AddsUnless name.now uid target.now held source given store.old store.new (D.history store.old.disk) (D.history store.new.disk) (D.faults store.old.disk) (D.faults store.new.disk)) }
    ensures refused { IfErr result (λ error. IsNotAdded name.now uid target.now held source error store.old store.new (D.history store.old.disk) (D.history store.new.disk) (D.faults store.old.disk) (D.faults store.new.disk)) }
{
    store.facts();
    let CopyAt {
        row,
        source: BoxNo(now),
        target: number,
        next,
    } = find_copy(store, name, uid, target)?;
    let BoxNo(began) = source;
    if now != began {
        return Ok(None);
    }
    let words = row.words.texts(store.alloc())?;
    let entry = BoxEntry::A {
        uid: next,
        flags: row.flags.bits(),
        time: row.time,
        size: row.size,
        map_uid: row.map_uid,
        guid: row.guid,
        words,
    };
    match store.append_box(number, &entry) {
        Ok(()) => Ok(Some(next)),
        Err(StepError::Stopped) => Err(NotDone::Stopped),
        Err(StepError::NoMemory) => Err(NotDone::NoMemory),
    }
}
