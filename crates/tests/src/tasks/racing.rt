// Two tasks over one store, whose events take turns in both orders.
use crate::tasks::events::{Asked, End, Raced, Start, raced};
use crate::tasks::race::Turn;
use crate::tasks::race::Turn::{One, Two};
use crate::tasks::stores::{LAST_UID_FREE, THREE_MAILBOXES, THREE_MESSAGES, TWO_MAILBOXES};
use mdbox_base::{Refusal, Uid};
use std::test::Fail;

/// Turns, and how the race ends.
type Case = (&'static [Turn], Raced);

const NO_MESSAGE: End = End::Refused(Refusal::NoMessage);

/// A copy of message 1 within INBOX, and an expunge of it.
const COPY_BESIDE_EXPUNGE: Start = Start {
    one: (Asked::Copy, 1, b"INBOX"),
    two: (Asked::Expunge, 1, b"INBOX"),
    laid: THREE_MESSAGES,
};

const COPIES_BESIDE_EXPUNGES: [Case; 5] = [
    (
        &[One, One, Two, Two],
        (End::Copied(Uid(4)), End::Done, [234, 0, 0], 2),
    ),
    (
        &[One, Two, One, One, Two],
        (NO_MESSAGE, End::Done, [23, 0, 0], 1),
    ),
    (
        &[One, Two, Two, One, One],
        (NO_MESSAGE, End::Done, [23, 0, 0], 1),
    ),
    (&[Two, One, Two], (NO_MESSAGE, End::Done, [23, 0, 0], 1)),
    (&[Two, Two, One], (NO_MESSAGE, End::Done, [23, 0, 0], 1)),
];

/// A copy is done if its two events come before the message leaves; else it is refused, and its count is given back.
#[test]
fn a_copy_races_an_expunge(rt: HostRuntime) -> Result<(), Fail> {
    for (turns, wanted) in COPIES_BESIDE_EXPUNGES {
        let found = raced(rt.alloc(), &COPY_BESIDE_EXPUNGE, turns)?;
        assert_eq!(rt; found, Some(wanted));
    }
    Ok(())
}

/// A move of message 1 to A, and one of it to B.
const TWO_MOVES: Start = Start {
    one: (Asked::Move, 1, b"A"),
    two: (Asked::Move, 1, b"B"),
    laid: THREE_MAILBOXES,
};

const MOVED: End = End::Moved(Uid(1));

const GONE: End = End::Gone(Uid(1));

const MOVES: [Case; 5] = [
    (
        &[One, Two, One, Two, One, Two, One],
        (MOVED, GONE, [0, 1, 1], 2),
    ),
    (
        &[Two, One, Two, One, Two, One, Two],
        (GONE, MOVED, [0, 1, 1], 2),
    ),
    (
        &[One, Two, One, One, One, Two, Two],
        (MOVED, NO_MESSAGE, [0, 1, 0], 1),
    ),
    (
        &[One, One, One, Two, One],
        (MOVED, NO_MESSAGE, [0, 1, 0], 1),
    ),
    (
        &[Two, Two, Two, Two, One],
        (NO_MESSAGE, MOVED, [0, 0, 1], 1),
    ),
];

/// Of two moves of one message each mailbox gets it, if both have copied it before it leaves, and the second finds it gone; else
/// the second is refused.
#[test]
fn two_moves_of_one_message(rt: HostRuntime) -> Result<(), Fail> {
    for (turns, wanted) in MOVES {
        let found = raced(rt.alloc(), &TWO_MOVES, turns)?;
        assert_eq!(rt; found, Some(wanted));
    }
    Ok(())
}

/// A move of message 1 to A, and an expunge of it.
const MOVE_BESIDE_EXPUNGE: Start = Start {
    one: (Asked::Move, 1, b"A"),
    two: (Asked::Expunge, 1, b"INBOX"),
    laid: TWO_MAILBOXES,
};

const MOVES_BESIDE_EXPUNGES: [Case; 3] = [
    // The message leaves before it is copied: the count is given back, and then the refusal is replied.
    (
        &[One, Two, One, One, Two],
        (NO_MESSAGE, End::Done, [2, 0, 0], 0),
    ),
    // It leaves between the halves: it has gone, and the target lists its copy.
    (&[One, One, Two, One, Two], (GONE, End::Done, [2, 1, 0], 1)),
    // It is moved, and the expunge finds none.
    (
        &[One, One, One, Two, One],
        (MOVED, NO_MESSAGE, [2, 1, 0], 1),
    ),
];

/// A move is refused if the message leaves before its copy is listed, and finds it gone if it leaves after that.
#[test]
fn a_move_races_an_expunge(rt: HostRuntime) -> Result<(), Fail> {
    for (turns, wanted) in MOVES_BESIDE_EXPUNGES {
        let found = raced(rt.alloc(), &MOVE_BESIDE_EXPUNGE, turns)?;
        assert_eq!(rt; found, Some(wanted));
    }
    Ok(())
}

/// Two copies of message 1 to A, of whose UIDs the last one is free.
const TWO_COPIES: Start = Start {
    one: (Asked::Copy, 1, b"A"),
    two: (Asked::Copy, 1, b"A"),
    laid: LAST_UID_FREE,
};

const LAST: End = End::Copied(Uid(4_294_967_294));

const FULL: End = End::Refused(Refusal::StoreFull(4_294_967_294));

const COPIES: [Case; 2] = [
    (
        &[One, Two, One, Two, Two],
        (LAST, FULL, [1, 4_294_967_294, 0], 2),
    ),
    (
        &[One, Two, Two, One, One],
        (FULL, LAST, [1, 4_294_967_294, 0], 2),
    ),
];

/// The copy that adds the message first gets the last UID. The other is refused as it would add it, and gives its count back.
#[test]
fn a_copy_for_which_no_uid_is_left(rt: HostRuntime) -> Result<(), Fail> {
    for (turns, wanted) in COPIES {
        let found = raced(rt.alloc(), &TWO_COPIES, turns)?;
        assert_eq!(rt; found, Some(wanted));
    }
    Ok(())
}
