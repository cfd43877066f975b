// Mailbox lists that follow a journal, a step at a time.
use mdbox_base::{
    BoxNo, Guid, Half, ListRow, Name, NoMemory, Octets, Refusal, Reply, Request, Seq, Uid, Words,
    flags_of, name_of,
};
use plain_lists::{PlainLists, PlainMailbox, PlainMessage};
use std::alloc::Global;
use std::mem;

/// What lists answer to a request so far, and the number of the mailbox from which they copied for a move.
#[derive(Drop)]
pub struct Wanted {
    pub reply: Reply,
    source: Option<BoxNo>,
}

/// Mailbox lists that follow a journal, and the highest number that a mailbox was ever given.
#[derive(Drop)]
pub struct Followed {
    alloc: Global,
    mailboxes: Vec<PlainMailbox>,
    highest: u32,
}

impl Followed {
    /// The lists of a new store: an empty INBOX.
    pub fn fresh(alloc: Global) -> Result<Followed, NoMemory> {
        let mut followed = Followed {
            alloc,
            mailboxes: Vec::new(alloc),
            highest: 0,
        };
        if let Some(name) = name_of(alloc, b"INBOX")? {
            followed.make(name)?;
        }
        Ok(followed)
    }

    /// Does a step of a request, and answers what plain lists answer. `so_far` is what they answered to the first half of a move, and
    /// `given` is the store's reply, which tells the GUID of a delivery. None if there is no such step.
    pub fn step(
        &mut self,
        request: &Request,
        half: Half,
        so_far: &Option<Wanted>,
        given: Option<&Reply>,
    ) -> Result<Option<Wanted>, NoMemory> {
        match (request, half) {
            (Request::Move { name, uid, target }, Half::CopyHalf) => {
                let source = self.number(name);
                let reply = self.copy(name, *uid, target)?;
                Ok(Some(Wanted { reply, source }))
            }
            (Request::Move { uid, .. }, Half::ExpungeHalf) => Ok(self.second_half(*uid, so_far)),
            (Request::Move { .. }, Half::Whole) => Ok(None),
            (_, Half::Whole) => match self.whole(request, given)? {
                Some(reply) => Ok(Some(Wanted {
                    reply,
                    source: None,
                })),
                None => Ok(None),
            },
            _ => Ok(None),
        }
    }

    /// Does a request that is one step.
    fn whole(
        &mut self,
        request: &Request,
        given: Option<&Reply>,
    ) -> Result<Option<Reply>, NoMemory> {
        let alloc = self.alloc;
        match request {
            Request::Deliver {
                name,
                time,
                message,
            } => match given {
                Some(Reply::Saved { guid, .. }) => self.deliver(name, *time, message, *guid),
                _ => Ok(self.no_mailbox(name)),
            },
            Request::List { name } => Ok(Some(self.list(name)?)),
            Request::Fetch { name, uid } => Ok(Some(self.fetch(name, *uid)?)),
            Request::Flag { name, uid, flags } => {
                let mut lists = self.lists();
                let reply = lists.flag(name, *uid, *flags);
                self.put_back(lists);
                Ok(Some(reply))
            }
            Request::Keywords { name, uid, words } => Ok(Some(self.keywords(name, *uid, words)?)),
            Request::Copy { name, uid, target } => Ok(Some(self.copy(name, *uid, target)?)),
            Request::Expunge { name, uid } => {
                let mut lists = self.lists();
                let reply = lists.expunge(name, *uid);
                self.put_back(lists);
                Ok(Some(reply))
            }
            Request::Make { name } => match name_of(alloc, name.as_octets())? {
                Some(name) => Ok(Some(self.make(name)?)),
                None => Ok(None),
            },
            Request::Delete { name } => {
                let mut lists = self.lists();
                let reply = lists.delete(name);
                self.put_back(lists);
                Ok(Some(reply))
            }
            Request::Rename { name, target } => match name_of(alloc, target.as_octets())? {
                Some(target) => Ok(Some(self.rename(name, target))),
                None => Ok(None),
            },
            Request::Move { .. } => Ok(None),
            Request::Counts => Ok(Some(self.counts())),
            Request::Purge => Ok(Some(Reply::Purged {
                dropped: 0,
                files: 0,
                instances: 0,
            })),
            Request::Resync => Ok(Some(Reply::Resynced {
                corrected: 0,
                damaged: 0,
            })),
        }
    }

    /// The lists, which are to be put back.
    fn lists(&mut self) -> PlainLists {
        PlainLists::of(
            mem::replace(&mut self.mailboxes, Vec::new(self.alloc)),
            self.highest,
        )
    }

    fn put_back(&mut self, lists: PlainLists) {
        let (mailboxes, highest) = lists.into_parts();
        self.mailboxes = mailboxes;
        self.highest = highest;
    }

    fn list(&mut self, name: &Name) -> Result<Reply, NoMemory> {
        let lists = self.lists();
        let reply = lists.list(self.alloc, name);
        self.put_back(lists);
        reply
    }

    fn make(&mut self, name: Name) -> Result<Reply, NoMemory> {
        let mut lists = self.lists();
        let reply = lists.make(self.alloc, name);
        self.put_back(lists);
        reply
    }

    fn copy(&mut self, name: &Name, uid: Uid, target: &Name) -> Result<Reply, NoMemory> {
        let mut lists = self.lists();
        let reply = lists.copy(self.alloc, name, uid, target);
        self.put_back(lists);
        reply
    }

    fn keywords(&mut self, name: &Name, uid: Uid, words: &Words) -> Result<Reply, NoMemory> {
        let words = words.copied(self.alloc)?;
        let mut lists = self.lists();
        let reply = lists.keywords(name, uid, words);
        self.put_back(lists);
        Ok(reply)
    }

    fn rename(&mut self, name: &Name, target: Name) -> Reply {
        let mut lists = self.lists();
        let reply = lists.rename(name, target);
        self.put_back(lists);
        reply
    }

    /// The second half of a move, from the mailbox that its copy found.
    fn second_half(&mut self, uid: Uid, so_far: &Option<Wanted>) -> Option<Wanted> {
        let Some(
            Wanted {
                reply: Reply::Copied { uid: copied },
                source: Some(source),
            },
        ) = so_far
        else {
            return None;
        };
        let mut lists = self.lists();
        let reply = lists.second_half(*source, uid, *copied);
        self.put_back(lists);
        Some(Wanted {
            reply,
            source: None,
        })
    }

    /// Adds a message with this GUID. None if the GUID is another's, or the lists have no room.
    fn deliver(
        &mut self,
        name: &Name,
        time: u64,
        message: &Octets,
        guid: Guid,
    ) -> Result<Option<Reply>, NoMemory> {
        let octets = Vec::from_slice(self.alloc, message.as_slice())?;
        let Some(flags) = flags_of(0) else {
            return Ok(None);
        };
        if self.has_guid(guid) || octets.len() > MOST_OCTETS {
            return Ok(None);
        }
        let message = PlainMessage {
            uid: Uid(0),
            flags,
            time,
            guid,
            octets: Octets::of(octets),
            words: Words::none(self.alloc),
        };
        for mailbox in self.mailboxes.iter_mut() {
            if mailbox.name.as_octets() == name.as_octets() && mailbox.next_uid < u32::MAX {
                let uid = mailbox.add(message)?;
                return Ok(Some(Reply::Saved { uid, guid }));
            }
        }
        Ok(self.no_mailbox(name))
    }

    /// The refusal of a mailbox that isn't there. None if it is.
    fn no_mailbox(&self, name: &Name) -> Option<Reply> {
        match self.mailbox(name) {
            Some(_) => None,
            None => Some(Reply::Refused(Refusal::NoMailbox)),
        }
    }

    fn mailbox(&self, name: &Name) -> Option<&PlainMailbox> {
        for mailbox in &self.mailboxes {
            if mailbox.name.as_octets() == name.as_octets() {
                return Some(mailbox);
            }
        }
        None
    }

    /// The number of a mailbox.
    fn number(&self, name: &Name) -> Option<BoxNo> {
        Some(self.mailbox(name)?.number)
    }

    fn has_guid(&self, guid: Guid) -> bool {
        for mailbox in &self.mailboxes {
            for message in &mailbox.messages {
                if message.guid == guid {
                    return true;
                }
            }
        }
        false
    }

    /// The octets of a message.
    fn fetch(&self, name: &Name, uid: Uid) -> Result<Reply, NoMemory> {
        let Some(mailbox) = self.mailbox(name) else {
            return Ok(Reply::Refused(Refusal::NoMailbox));
        };
        for message in &mailbox.messages {
            if message.uid == uid {
                let octets = Vec::from_slice(self.alloc, message.octets.as_slice())?;
                return Ok(Reply::Fetched(Octets::of(octets)));
            }
        }
        Ok(Reply::Refused(Refusal::NoMessage))
    }

    /// How many messages are listed. Lists know nothing of the other numbers.
    fn counts(&self) -> Reply {
        let mut references = 0u64;
        for mailbox in &self.mailboxes {
            references = references.saturating_add(mailbox.messages.len() as u64);
        }
        Reply::Counted {
            records: 0,
            references,
            counts: references,
            instances: 0,
        }
    }
}

/// Whether two listings are the same.
fn are_same_rows(rows: &[ListRow], others: &[ListRow]) -> bool {
    for (row, other) in rows.iter().zip(others.iter()) {
        if !is_same_row(row, other) {
            return false;
        }
    }
    rows.len() == others.len()
}

fn is_same_row(row: &ListRow, other: &ListRow) -> bool {
    row.uid == other.uid
        && row.flags == other.flags
        && row.size == other.size
        && row.time == other.time
        && row.guid == other.guid
        && are_same_texts(row.words.as_slice(), other.words.as_slice())
}

fn are_same_texts(texts: &[Octets], others: &[Octets]) -> bool {
    for (text, other) in texts.iter().zip(others.iter()) {
        if text.as_slice() != other.as_slice() {
            return false;
        }
    }
    texts.len() == others.len()
}

/// How many octets a message has at the most.
const MOST_OCTETS: usize = 67_108_864;

/// Whether a store's reply is the one that lists answer. Of a count they tell how many messages are listed; the counts that are kept are
/// as many, and one more for each of so many requests that may have begun beside it. Of a purge and a resync they tell nothing but that
/// the lists stay, and that no message is damaged.
pub fn is_answer(given: &Reply, wanted: &Reply, others: u64) -> bool {
    match (given, wanted) {
        (Reply::Saved { uid: a, guid: x }, Reply::Saved { uid: b, guid: y }) => a == b && x == y,
        (Reply::Listed(a), Reply::Listed(b)) => are_same_rows(a.as_slice(), b.as_slice()),
        (Reply::Fetched(a), Reply::Fetched(b)) => a.as_slice() == b.as_slice(),
        (Reply::Done, Reply::Done) => true,
        (Reply::Copied { uid: a }, Reply::Copied { uid: b }) => a == b,
        (Reply::Moved { uid: a, gone: x }, Reply::Moved { uid: b, gone: y }) => a == b && x == y,
        (
            Reply::Counted {
                references: a,
                counts,
                ..
            },
            Reply::Counted { references: b, .. },
        ) => a == b && counts >= b && *counts <= b.saturating_add(others),
        (Reply::Purged { .. }, Reply::Purged { .. }) => true,
        (
            Reply::Resynced {
                corrected: a,
                damaged: x,
            },
            Reply::Resynced {
                corrected: b,
                damaged: y,
            },
        ) => a == b && x == y,
        (Reply::Refused(a), Reply::Refused(b)) => a == b,
        _ => false,
    }
}
