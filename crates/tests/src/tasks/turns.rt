// Two deliveries that take turns.
ghost use Rattle.std.specs.Prelude.{IfOk};
ghost use Rattle.tests.specs.Deliveries.{IsFresh, IsHeldByNone};

use crate::tasks::deliveries::{delivery, new_store, unlike_store};
use crate::tasks::instances::{
    AS, KNOWS_BOTH, KNOWS_FIRST, Known, ONE, TWO, instances_of, names, one_part, row,
};
use crate::tasks::turn::{Turns, advance};
use disk_mem::MemDisk;
use mail_save::SaveTask;
use mdbox_base::{InstId, Reply, Uid};
use std::alloc::Global;
use std::test::Fail;
use store_core::Store;

/// Does the events of two deliveries in this order, and answers their replies: of each turn this is the number of the delivery.
fn in_turn(
    store: &mut Store<MemDisk>,
    first: SaveTask,
    second: SaveTask,
    order: &[u8],
) -> (Option<Reply>, Option<Reply>)
    requires fresh { IsFresh first × IsFresh second }
    requires unheld { IsHeldByNone store.old }
{
    let mut first = Turns {
        task: first,
        reply: None,
    };
    let mut second = Turns {
        task: second,
        reply: None,
    };
    for turn in order {
        if *turn == 1 {
            advance(store, &mut first, &second);
        } else {
            advance(store, &mut second, &first);
        }
    }
    let Turns {
        task: _first,
        reply,
    } = first;
    let Turns {
        task: _second,
        reply: other,
    } = second;
    (reply, other)
}

/// Orders of two deliveries to a new store, of one attachment, and the UIDs of their messages. In the first the second delivery
/// compares what the first has placed; in the second the first one; then they take turns at each event; the second begins when
/// the first has placed the instance, and ends before it; it begins before, and goes on when the first has ended; and the first
/// stores its message last.
const ORDERS: [([u8; 12], Uid, Uid); 6] = [
    ([1, 2, 1, 2, 1, 1, 1, 1, 2, 2, 2, 2], Uid(1), Uid(2)),
    ([1, 2, 2, 1, 1, 1, 1, 1, 2, 2, 2, 2], Uid(1), Uid(2)),
    ([1, 2, 1, 2, 1, 2, 1, 2, 1, 2, 1, 2], Uid(1), Uid(2)),
    ([1, 1, 2, 2, 2, 2, 2, 2, 1, 1, 1, 1], Uid(2), Uid(1)),
    ([1, 2, 1, 1, 1, 1, 1, 2, 2, 2, 2, 2], Uid(1), Uid(2)),
    ([1, 2, 2, 1, 1, 1, 2, 2, 2, 2, 1, 1], Uid(2), Uid(1)),
];

/// Orders of two deliveries to a store whose instance has other octets: one compares it and places its own, and the other, which
/// had compared it too, compares both then; or had not yet.
const ANEW: [([u8; 15], Uid, Uid); 3] = [
    (
        [1, 2, 1, 2, 1, 2, 2, 1, 1, 1, 1, 2, 2, 2, 2],
        Uid(1),
        Uid(2),
    ),
    (
        [1, 2, 1, 2, 2, 1, 1, 2, 2, 2, 2, 1, 1, 1, 1],
        Uid(2),
        Uid(1),
    ),
    (
        [1, 2, 1, 1, 2, 2, 1, 1, 2, 2, 2, 2, 1, 1, 2],
        Uid(2),
        Uid(1),
    ),
];

/// The UIDs of the messages that were saved.
fn uids(replies: &(Option<Reply>, Option<Reply>)) -> Option<(Uid, Uid)> {
    match replies {
        (Some(Reply::Saved { uid: first, .. }), Some(Reply::Saved { uid: second, .. })) => Some((
            *first, *second,
        )),
        _ => None,
    }
}

/// What two deliveries of one message leave, in this order.
#[derive(Clone, Copy, Debug, PartialEq, Eq)]
struct Left {
    uids: Option<(Uid, Uid)>,
    known: Known,
    /// Whether the records with these two numbers name the instance with this id.
    named: (bool, bool),
}

/// What they leave in this store. It goes.
fn left_by(
    store: Store<MemDisk>,
    tasks: (SaveTask, SaveTask),
    order: &[u8],
    uid: u32,
    id: InstId,
) -> Left
    requires fresh { IsFresh tasks.0 × IsFresh tasks.1 }
    requires unheld { IsHeldByNone store }
{
    let mut store = store;
    let (first, second) = tasks;
    let replies = in_turn(&mut store, first, second, order);
    let rows = [row(AS, id, 131_072)];
    let left = Left {
        uids: uids(&replies),
        known: instances_of(&store),
        named: (
            names(&store, uid, &rows),
            names(&store, uid.saturating_add(1), &rows),
        ),
    };
    let _disk = store.into_disk();
    left
}

/// Two tasks that deliver one message.
fn tasks(alloc: Global) -> Result<(SaveTask, SaveTask), Fail>
    ensures { IfOk result (λ tasks. IsFresh tasks.0 × IsFresh tasks.1) }
{
    let message = one_part(alloc)?;
    let first = delivery(alloc, message.as_slice())?;
    let second = delivery(alloc, message.as_slice())?;
    Ok((first, second))
}

/// What two deliveries leave in a new store.
fn in_new_store(alloc: Global, order: &[u8]) -> Result<Left, Fail> {
    let tasks = tasks(alloc)?;
    Ok(left_by(new_store(alloc)?, tasks, order, 1, ONE))
}

/// The same in a store whose instance has other octets.
fn in_unlike_store(alloc: Global, order: &[u8]) -> Result<Left, Fail> {
    let tasks = tasks(alloc)?;
    Ok(left_by(unlike_store(alloc)?, tasks, order, 2, TWO))
}

/// Neither finds an instance at first. One places it, and the other compares it and finds it, whoever comes first.
#[test]
fn two_deliveries_place_one_instance(rt: HostRuntime) -> Result<(), Fail> {
    for (order, first, second) in ORDERS {
        let left = in_new_store(rt.alloc(), &order)?;
        let wanted = Left {
            uids: Some((first, second)),
            known: KNOWS_FIRST,
            named: (true, true),
        };
        assert_eq!(rt; left, wanted, "{order:?}");
    }
    Ok(())
}

#[test]
fn a_new_candidate_is_compared(rt: HostRuntime) -> Result<(), Fail> {
    for (order, first, second) in ANEW {
        let left = in_unlike_store(rt.alloc(), &order)?;
        let wanted = Left {
            uids: Some((first, second)),
            known: KNOWS_BOTH,
            named: (true, true),
        };
        assert_eq!(rt; left, wanted, "{order:?}");
    }
    Ok(())
}
