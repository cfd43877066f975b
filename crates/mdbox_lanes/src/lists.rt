// Two mailboxes as plain lists.
use crate::printed::{Printed, printed_at};
use crate::wrong::{Wrong, must};
use std::alloc::Global;

/// What is done to them.
#[derive(Clone, Copy)]
enum Step {
    /// The message `Third` is delivered to A.
    Deliver,
    /// The second message of INBOX, `World`, is fetched.
    Fetch,
    /// It is copied to A,
    Copy,
    /// and removed from INBOX.
    Remove,
}

/// What A has, and whether `World` is in INBOX.
#[derive(Drop)]
struct Lists {
    listed: Vec<&'static str>,
    has_world: bool,
}

/// The replies to a delivery, a fetch and a move.
#[derive(Clone, Copy)]
struct Replies<'x> {
    delivery: Printed<'x>,
    fetch: Printed<'x>,
    moved: Printed<'x>,
}

/// How many steps are printed at the most.
const MOST_STEPS: u64 = 8;

/// What A has once the steps were made in the order of their printed places, if each reply is what lists answer at its place. A purge
/// changes no list.
pub fn follow(alloc: Global, text: &str) -> Result<Vec<&'static str>, Wrong> {
    let replies = Replies {
        delivery: reply_to(text, 2)?,
        fetch: reply_to(text, 3)?,
        moved: reply_to(text, 4)?,
    };
    let steps = [
        (replies.delivery.first, Step::Deliver),
        (replies.fetch.first, Step::Fetch),
        (replies.moved.first, Step::Copy),
        (replies.moved.second, Step::Remove),
    ];
    let mut lists = Lists {
        listed: Vec::new(alloc),
        has_world: true,
    };
    for place in 1..=MOST_STEPS {
        for (own, step) in steps {
            if own == place {
                lists.take(alloc, step, replies)?;
            }
        }
    }
    must(!lists.has_world, "the moved message is still there")?;
    Ok(lists.listed)
}

/// How many records there are afterwards: the purge dropped the one that no list names, or none, if its storage file was in use.
pub fn records_after(text: &str) -> Result<u64, Wrong> {
    let purge = reply_to(text, 1)?;
    if purge.reply.starts_with("OK 1 ") {
        Ok(3)
    } else {
        must(purge.reply == "OK 0 0 0", "a purge")?;
        Ok(4)
    }
}

fn reply_to<'x>(text: &'x str, number: u64) -> Result<Printed<'x>, Wrong> {
    printed_at(text, number).ok_or(Wrong::Differs("no reply"))
}

impl Lists {
    /// Makes a step, whose reply must be what these lists answer.
    fn take(&mut self, alloc: Global, step: Step, replies: Replies<'_>) -> Result<(), Wrong> {
        match step {
            Step::Deliver => self.add(alloc, "Third", replies.delivery.reply),
            Step::Copy => self.add(alloc, "World", replies.moved.reply),
            Step::Fetch => {
                let answer = if self.has_world {
                    "OK 5"
                } else {
                    "NO 12 no message"
                };
                must(replies.fetch.reply == answer, "a fetch")
            }
            Step::Remove => {
                self.has_world = false;
                Ok(())
            }
        }
    }

    /// Adds a message to A. Its reply begins with its UID.
    fn add(&mut self, alloc: Global, message: &'static str, reply: &str) -> Result<(), Wrong> {
        self.listed.push(message)?;
        let uid = self.listed.len();
        let answer = format!(in alloc; "OK {uid}")?;
        let is_its_uid = match reply.strip_prefix(answer.as_str()) {
            Some(rest) => rest.is_empty() || rest.starts_with(" "),
            None => false,
        };
        must(is_its_uid, "a message isn't given the next UID")
    }
}
