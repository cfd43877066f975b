// The steps of the list machine.
ghost use Rattle.std.specs.Prelude.{◌≡◌, ℕ, List, Some, IfOk, OnErr};
ghost use Rattle.mdbox_base.specs.declared.requests.Request.TheVariants as request;
ghost use Rattle.list_machine.specs.Run.{Run, RunEvent, First, SecondHalf, source_of, uid_copied};
ghost use Rattle.list_machine.specs.Machine.{PartAnswers};
ghost use Rattle.plain_lists.specs.AtOnce.{IsAlone, AnswersAtOnce, highest_made};

use crate::lists::{PlainLists, PlainMailbox};
use crate::walks::{place_of_mailbox, place_of_message, place_of_number, references, rows_of};
use mdbox_base::{BoxNo, Flags, LAST_NUMBER, Name, NoMemory, Refusal, Reply, Uid, Words};
use std::alloc::Global;

/// The most mailboxes.
const MAILBOXES: usize = 1024;
/// The most messages in one mailbox.
const MESSAGES: usize = 1_000_000;
/// The most references to one message.
const COPIES: usize = 65535;

impl PlainLists {
    /// The rows of a mailbox.
    pub fn list(&self, alloc: Global, name: &Name) -> Result<Reply, NoMemory>
        ensures { IfOk result (λ reply. (run : Run) (event : RunEvent) → PartAnswers run event self.now.lists (request.List name.now) First reply self.now.lists) }
    {
        match place_of_mailbox(&self.mailboxes, name) {
            None => Ok(Reply::Refused(Refusal::NoMailbox)),
            Some(place) => Ok(Reply::Listed(rows_of(alloc, &self.mailboxes[place].messages)?)),
        }
    }

    /// Sets a message's flags.
    pub fn flag(&mut self, name: &Name, uid: Uid, flags: Flags) -> Reply
        ensures answers { (run : Run) (event : RunEvent) → PartAnswers run event self.old.lists (request.Flag name.now uid flags) First result self.new.lists }
        ensures same { self.new.highest ≡ self.old.highest }
    {
        let Some(place) = place_of_mailbox(&self.mailboxes, name) else {
            return Reply::Refused(Refusal::NoMailbox);
        };
        let Some(at) = place_of_message(&self.mailboxes[place].messages, uid) else {
            return Reply::Refused(Refusal::NoMessage);
        };
        self.mailboxes[place].messages[at].flags = flags;
        Reply::Done
    }

    /// Gives a message these keywords, and no others.
    pub fn keywords(&mut self, name: &Name, uid: Uid, words: Words) -> Reply
        ensures answers { (run : Run) (event : RunEvent) → PartAnswers run event self.old.lists (request.Keywords name.now uid words) First result self.new.lists }
        ensures same { self.new.highest ≡ self.old.highest }
    {
        let Some(place) = place_of_mailbox(&self.mailboxes, name) else {
            return Reply::Refused(Refusal::NoMailbox);
        };
        let Some(at) = place_of_message(&self.mailboxes[place].messages, uid) else {
            return Reply::Refused(Refusal::NoMessage);
        };
        self.mailboxes[place].messages[at].words = words;
        Reply::Done
    }

    /// Removes a message.
    pub fn expunge(&mut self, name: &Name, uid: Uid) -> Reply
        ensures answers { (run : Run) (event : RunEvent) → PartAnswers run event self.old.lists (request.Expunge name.now uid) First result self.new.lists }
        ensures same { self.new.highest ≡ self.old.highest }
    {
        let Some(place) = place_of_mailbox(&self.mailboxes, name) else {
            return Reply::Refused(Refusal::NoMailbox);
        };
        let Some(at) = place_of_message(&self.mailboxes[place].messages, uid) else {
            return Reply::Refused(Refusal::NoMessage);
        };
        self.mailboxes[place].messages.remove(at);
        Reply::Done
    }

    /// Removes a mailbox with all that it lists. Its number never comes again.
    pub fn delete(&mut self, name: &Name) -> Reply
        ensures answers { (run : Run) (event : RunEvent) → PartAnswers run event self.old.lists (request.Delete name.now) First result self.new.lists }
        ensures same { self.new.highest ≡ self.old.highest }
    {
        let Some(place) = place_of_mailbox(&self.mailboxes, name) else {
            return Reply::Refused(Refusal::NoMailbox);
        };
        if name.as_octets() == b"INBOX".as_slice() {
            return Reply::Refused(Refusal::Inbox);
        }
        self.mailboxes.remove(place);
        Reply::Done
    }

    /// Gives a mailbox another name.
    pub fn rename(&mut self, name: &Name, target: Name) -> Reply
        ensures answers { (run : Run) (event : RunEvent) → PartAnswers run event self.old.lists (request.Rename name.now target) First result self.new.lists }
        ensures same { self.new.highest ≡ self.old.highest }
    {
        let Some(place) = place_of_mailbox(&self.mailboxes, name) else {
            return Reply::Refused(Refusal::NoMailbox);
        };
        if name.as_octets() == b"INBOX".as_slice() {
            return Reply::Refused(Refusal::Inbox);
        }
        if place_of_mailbox(&self.mailboxes, &target).is_some() {
            return Reply::Refused(Refusal::Exists);
        }
        self.mailboxes[place].name = target;
        Reply::Done
    }

    /// Makes an empty mailbox, with a number above each that one was ever given.
    pub fn make(&mut self, alloc: Global, name: Name) -> Result<Reply, NoMemory>
        ensures answers { IfOk result (λ reply. (run : Run) → IsAlone run self.old → AnswersAtOnce run self.old.lists (request.Make name) reply self.new.lists) }
        ensures numbered { IfOk result (λ reply. self.new.highest ≡ highest_made reply self.old.highest) }
        ensures err { OnErr result (self.new ≡ self.old) }
    {
        if place_of_mailbox(&self.mailboxes, &name).is_some() {
            return Ok(Reply::Refused(Refusal::Exists));
        }
        if self.mailboxes.len() >= MAILBOXES {
            return Ok(Reply::Refused(Refusal::TooManyMailboxes(MAILBOXES as u64)));
        }
        if self.highest >= LAST_NUMBER {
            return Ok(Reply::Refused(Refusal::StoreFull(u64::from(LAST_NUMBER))));
        }
        let highest = self.highest + 1;
        let mailbox = PlainMailbox {
            number: BoxNo(highest),
            name,
            next_uid: 1,
            messages: Vec::new(alloc),
        };
        self.mailboxes.push(mailbox)?;
        self.highest = highest;
        Ok(Reply::Done)
    }

    /// Copies a message to the end of a mailbox, which may be its own.
    pub fn copy(
        &mut self,
        alloc: Global,
        name: &Name,
        uid: Uid,
        target: &Name,
    ) -> Result<Reply, NoMemory>
        ensures answers { IfOk result (λ reply. (run : Run) → IsAlone run self.old → AnswersAtOnce run self.old.lists (request.Copy name.now uid target.now) reply self.new.lists) }
        ensures same { self.new.highest ≡ self.old.highest }
        ensures err { OnErr result (self.new ≡ self.old) }
    {
        let Some(source) = place_of_mailbox(&self.mailboxes, name) else {
            return Ok(Reply::Refused(Refusal::NoMailbox));
        };
        let Some(place) = place_of_mailbox(&self.mailboxes, target) else {
            return Ok(Reply::Refused(Refusal::NoMailbox));
        };
        let from = &self.mailboxes[source];
        let Some(at) = place_of_message(&from.messages, uid) else {
            return Ok(Reply::Refused(Refusal::NoMessage));
        };
        let message = &from.messages[at];
        let into = &self.mailboxes[place];
        if into.messages.len() >= MESSAGES {
            return Ok(Reply::Refused(Refusal::MailboxFull(MESSAGES as u64)));
        }
        if into.next_uid > LAST_NUMBER {
            return Ok(Reply::Refused(Refusal::StoreFull(u64::from(LAST_NUMBER))));
        }
        if references(&self.mailboxes, message.guid) >= COPIES {
            return Ok(Reply::Refused(Refusal::TooManyCopies(COPIES as u64)));
        }
        let copy = message.copied(alloc)?;
        let uid = self.mailboxes[place].add(copy)?;
        Ok(Reply::Copied { uid })
    }

    /// Removes the message that a move has copied from the mailbox with this number, where it is still there. Its copy got the
    /// UID `copied`.
    pub fn second_half(&mut self, source: BoxNo, uid: Uid, copied: Uid) -> Reply
        ensures answers { (run : Run) (event : RunEvent) (name target : List ℕ) → source_of event.request run ≡ source.0 → uid_copied event.request run ≡ Some copied.0 → PartAnswers run event self.old.lists (request.Move name uid target) SecondHalf result self.new.lists }
        ensures same { self.new.highest ≡ self.old.highest }
    {
        let Some(place) = place_of_number(&self.mailboxes, source) else {
            return Reply::Moved {
                uid: copied,
                gone: true,
            };
        };
        let Some(left) = place_of_message(&self.mailboxes[place].messages, uid) else {
            return Reply::Moved {
                uid: copied,
                gone: true,
            };
        };
        self.mailboxes[place].messages.remove(left);
        Reply::Moved {
            uid: copied,
            gone: false,
        }
    }
}
