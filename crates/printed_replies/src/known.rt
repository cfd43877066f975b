// What the types of replies say of them.
ghost use Rattle.std.specs.Prelude.{◌<◌, ◌^◌, All};
ghost use Rattle.mdbox_base.specs.Words.{IsOctets};
ghost use Rattle.printed_replies.specs.PrintedReplies.{RowHasWords, RefusalHasWords, ReplyHasWords};

use mdbox_base::{ListRow, Refusal, Reply, Uid};

fn known_octets(octets: &[u8])
    ensures { IsOctets octets.now }
{
    let _length = octets.len();
}

fn known_uid(uid: Uid)
    ensures { uid.0 < 2 ^ 64 }
{}

fn known_numbers(size: u32, time: u64)
    ensures { (size < 2 ^ 64) × (time < 2 ^ 64) }
{}

fn known_row(row: &ListRow)
    ensures { RowHasWords row.now }
{
    known_uid(row.uid);
    let _flags = row.flags.bits();
    known_numbers(row.size, row.time);
    known_octets(&row.guid.0);
    let _words = row.words.as_slice();
}

fn known_refusal(refusal: Refusal)
    ensures { RefusalHasWords refusal }
{
    match refusal {
        Refusal::Damaged {
            file: _file,
            offset: _offset,
        } => (),
        _ => (),
    }
}

fn known_rows(rows: &[ListRow])
    ensures { All RowHasWords rows.now }
{
    for row in rows {
        known_row(row);
    }
}

/// The numbers and lengths of a reply are below 2 ^ 64, a GUID has octets, and keywords are those of a message.
pub fn known_words(reply: &Reply)
    ensures { ReplyHasWords reply.now }
{
    match reply {
        Reply::Saved { uid, guid } => {
            known_uid(*uid);
            known_octets(&guid.0);
        }
        Reply::Listed(rows) => known_rows(rows.as_slice()),
        Reply::Fetched(octets) => known_octets(octets.as_slice()),
        Reply::Done => (),
        Reply::Copied { uid } => {
            known_uid(*uid);
        }
        Reply::Moved { uid, gone: _gone } => {
            known_uid(*uid);
        }
        Reply::Counted {
            records,
            references,
            counts,
            instances,
        } => {
            let _numbers = [*records, *references, *counts, *instances];
        }
        Reply::Purged {
            dropped,
            files,
            instances,
        } => {
            let _numbers = [*dropped, *files, *instances];
        }
        Reply::Resynced { corrected, damaged } => {
            let _numbers = [*corrected, *damaged];
        }
        Reply::Refused(refusal) => known_refusal(*refusal),
        Reply::AltMoved { moved, dropped } => {
            let _numbers = [*moved, *dropped];
        }
    }
}
