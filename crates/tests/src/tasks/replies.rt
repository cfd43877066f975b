// What is printed of replies.
use mdbox_base::{
    FileNo, Flags, Guid, ListRow, MemSink, Octets, Refusal, Reply, Seq, Uid, Words, are_words,
    flags_of,
};
use piece_writer::PrintError;
use request_text::print_reply;
use std::alloc::Global;
use std::test::Fail;

/// A GUID: the id of a store, the number of a storage file, and an offset.
const GUID: Guid = Guid([
    0x00, 0x11, 0x22, 0x33, 0x44, 0x55, 0x66, 0x77, 0, 0, 0, 1, 0, 0, 0, 0x10,
]);

/// What printing a reply answers where this call of the output fails, and whether this was printed.
fn printed(
    alloc: Global,
    reply: &Reply,
    failing: u64,
    text: &str,
) -> Result<(Result<(), PrintError>, bool), Fail> {
    let fails = Seq::of(vec![in alloc; failing]?);
    let mut output = MemSink::of(Octets::empty(alloc), fails);
    let answer = print_reply(alloc, &mut output, reply);
    Ok((answer, output.held().as_slice() == text.as_bytes()))
}

/// A row of a listing.
fn row(uid: u32, flags: Flags, size: u32, words: Words) -> ListRow {
    ListRow {
        uid: Uid(uid),
        flags,
        size,
        time: 1_694_498_816,
        guid: GUID,
        words,
    }
}

/// Two keywords.
fn two_words(alloc: Global) -> Result<Words, Fail> {
    let first = Octets::of(Vec::from_slice(alloc, b"$Later")?);
    let second = Octets::of(Vec::from_slice(alloc, b"work")?);
    let texts = Seq::of(vec![in alloc; first, second]?);
    if are_words(texts.as_slice()) {
        Ok(Words::of(texts))
    } else {
        Err(Fail::from("no keywords"))
    }
}

/// What each reason for a refusal prints.
const REFUSALS: [(Refusal, &str); 11] = [
    (Refusal::NoMailbox, "NO 10 no mailbox\n"),
    (Refusal::Exists, "NO 11 exists\n"),
    (Refusal::NoMessage, "NO 12 no message\n"),
    (
        Refusal::TooManyCopies(65_535),
        "NO 13 too many copies 65535\n",
    ),
    (
        Refusal::MailboxFull(1_000_000),
        "NO 14 mailbox full 1000000\n",
    ),
    (
        Refusal::TooManyMailboxes(1024),
        "NO 15 too many mailboxes 1024\n",
    ),
    (
        Refusal::StoreFull(4_294_967_294),
        "NO 16 store full 4294967294\n",
    ),
    (Refusal::NoMemory, "NO 17 memory\n"),
    (Refusal::ReadFault, "NO 18 read fault\n"),
    (Refusal::Stopped, "NO 19 stopped\n"),
    (
        Refusal::Damaged {
            file: FileNo(1),
            offset: 16,
        },
        "NO 20 damaged storage/m.1 16\n",
    ),
];

/// Whether a reply is printed so.
fn is_printed(alloc: Global, reply: &Reply, text: &str) -> Result<bool, Fail> {
    let (answer, same) = printed(alloc, reply, 0, text)?;
    Ok(answer.is_ok() && same)
}

#[test]
fn refusals_are_printed(rt: HostRuntime) -> Result<(), Fail> {
    for (refusal, text) in REFUSALS {
        let same = is_printed(rt.alloc(), &Reply::Refused(refusal), text)?;
        assert!(rt; same, "{text}");
    }
    Ok(())
}

/// Whether these replies are printed so.
fn uids_are_printed(alloc: Global) -> Result<[bool; 4], Fail> {
    let uid = Uid(1);
    let saved = "OK 1 00112233445566770000000100000010\n";
    Ok([
        is_printed(alloc, &Reply::Saved { uid, guid: GUID }, saved)?,
        is_printed(alloc, &Reply::Copied { uid: Uid(2) }, "OK 2\n")?,
        is_printed(alloc, &Reply::Moved { uid, gone: true }, "OK 1 GONE\n")?,
        is_printed(alloc, &Reply::Moved { uid, gone: false }, "OK 1\n")?,
    ])
}

fn counts_are_printed(alloc: Global) -> Result<[bool; 4], Fail> {
    let counted = Reply::Counted {
        records: 1,
        references: 2,
        counts: 2,
        instances: 0,
    };
    let purged = Reply::Purged {
        dropped: 1,
        files: 1,
        instances: 0,
    };
    let resynced = Reply::Resynced {
        corrected: 1,
        damaged: 0,
    };
    Ok([
        is_printed(alloc, &Reply::Done, "OK\n")?,
        is_printed(alloc, &counted, "OK 1 2 2 0\n")?,
        is_printed(alloc, &purged, "OK 1 1 0\n")?,
        is_printed(alloc, &resynced, "OK 1 0\n")?,
    ])
}

#[test]
fn numbers_are_printed(rt: HostRuntime) -> Result<(), Fail> {
    assert_eq!(rt; uids_are_printed(rt.alloc())?, [true; 4]);
    assert_eq!(rt; counts_are_printed(rt.alloc())?, [true; 4]);
    Ok(())
}

const LISTED: &str = "OK 2
1 8 5 1694498816 00112233445566770000000100000010
3 0 70 1694498816 00112233445566770000000100000010 $Later work
";

/// A listing of two messages, of which the second has two keywords.
fn listing(alloc: Global) -> Result<Reply, Fail> {
    let seen = flags_of(8).ok_or("no flags")?;
    let none = flags_of(0).ok_or("no flags")?;
    let first = row(1, seen, 5, Words::none(alloc));
    let second = row(3, none, 70, two_words(alloc)?);
    let rows = vec![in alloc; first, second]?;
    Ok(Reply::Listed(Seq::of(rows)))
}

/// A message that was fetched.
fn fetched(alloc: Global) -> Result<Reply, Fail> {
    let message = Vec::from_slice(alloc, b"Hi\r\n\n")?;
    Ok(Reply::Fetched(Octets::of(message)))
}

#[test]
fn listings_are_printed(rt: HostRuntime) -> Result<(), Fail> {
    let listing = listing(rt.alloc())?;
    assert!(rt; is_printed(rt.alloc(), &listing, LISTED)?);
    let (answer, same) = printed(rt.alloc(), &listing, 1, "")?;
    assert_eq!(rt; (answer, same), (Err(PrintError::WriteFault), true));
    Ok(())
}

#[test]
fn mail_is_printed(rt: HostRuntime) -> Result<(), Fail> {
    let fetched = fetched(rt.alloc())?;
    assert!(rt; is_printed(rt.alloc(), &fetched, "OK 5\nHi\r\n\n\n")?);
    let none = Reply::Listed(Seq::empty(rt.alloc()));
    assert!(rt; is_printed(rt.alloc(), &none, "OK 0\n")?);
    Ok(())
}
