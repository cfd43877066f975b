// A message more in a mailbox.
ghost use Rattle.std.specs.Prelude.{◌≡◌, ◌≤◌, IfOk, OnOk, OnErr};
ghost use Rattle.list_machine.specs.Machine.{add_last};
ghost use Rattle.plain_lists.specs.View.{message_of, mailbox_of};

use crate::lists::{PlainMailbox, PlainMessage};
use mdbox_base::{NoMemory, Octets, Uid};
use std::alloc::Global;

impl PlainMessage {
    /// The same message, with octets and keywords of its own.
    pub fn copied(&self, alloc: Global) -> Result<PlainMessage, NoMemory>
        ensures { IfOk result (λ message. message_of message ≡ message_of self.now) }
    {
        let mut octets = Octets::empty(alloc);
        octets.push_all(self.octets.as_slice())?;
        Ok(PlainMessage {
            uid: self.uid,
            flags: self.flags,
            time: self.time,
            guid: self.guid,
            octets,
            words: self.words.copied(alloc)?,
        })
    }
}

impl PlainMailbox {
    /// Adds a message last, with the next UID, and answers that UID.
    pub fn add(&mut self, mut message: PlainMessage) -> Result<Uid, NoMemory>
        requires { self.old.next_uid ≤ 4294967294 }
        ensures uid { IfOk result (λ uid. uid.0 ≡ self.old.next_uid) }
        ensures added { OnOk result (mailbox_of self.new ≡ add_last (message_of message) (mailbox_of self.old)) }
        ensures err { OnErr result (mailbox_of self.new ≡ mailbox_of self.old) }
    {
        let uid = Uid(self.next_uid);
        message.uid = uid;
        self.messages.push(message)?;
        self.next_uid += 1;
        Ok(uid)
    }
}
