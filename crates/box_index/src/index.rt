// The index of a mailbox.
ghost use Rattle.std.specs.Prelude.{◌≡◌, ◌≢◌, ◌+◌, ◌<◌, ◌≤◌, ◌↔◌, [], length, map, slice_get, IsTrue, IsNone, IsErr, IfOk, IfSome, OnOk, OnErr};
ghost use Rattle.std.specs.Option.{option_copied, option_map};
ghost use Rattle.model_meaning.specs.BoxMeaning.{box_meaning, box_applied, BoxFits, row_at, row_made};
ghost use Rattle.box_index.specs.Row.{row_of, row_with};

use crate::pieces::Pieces;
use crate::rows::BoxRows;
use mdbox_base::{BoxEntry, Flags, Guid, MapUid, NoMemory, Uid, Words, are_words, flags_of};
use std::alloc::Global;
use std::marker::Model;

/// How many messages a mailbox has at the most.
const MOST_ROWS: u32 = 1_000_000;

/// The greatest UID.
const LAST_UID: u32 = 4_294_967_294;

/// The most octets of a message.
const MOST_OCTETS: u32 = 67_108_864;

/// A listed message: size in octets, time in Unix seconds.
#[derive(Drop)]
pub struct BoxRow {
    pub uid: Uid,
    pub flags: Flags,
    pub size: u32,
    pub time: u64,
    pub guid: Guid,
    pub map_uid: MapUid,
    pub words: Words,
}

/// How a listed message changes: it has these flags, or these keywords.
#[derive(Drop)]
pub(crate) enum RowChange {
    Flags(Flags),
    Words(Words),
}

impl BoxRow {
    /// Changes the row.
    pub(crate) fn change(&mut self, change: RowChange)
        ensures { self.new ≡ row_with change self.old }
    {
        match change {
            RowChange::Flags(flags) => self.flags = flags,
            RowChange::Words(words) => self.words = words,
        }
    }
}

/// What the entries of a mailbox log mean so far.
#[derive(Drop)]
pub struct BoxIndex {
    rows: Pieces,
    next: u32,
}

impl Model for BoxIndex {
    ghost use Rattle.std.specs.Prelude.{map};
    ghost use Rattle.model_meaning.specs.BoxMeaning.{BoxMeaning};
    ghost use Rattle.box_index.specs.State.{BoxState};

    ghost Value = { BoxState };

    ghost use Rattle.box_index.specs.Row.{row_of, IsInOrder};

    ghost view = { λ index. record { meaning = record { rows = map row_of index.rows.rows; next = index.next }; room = index.rows.room } };

    ghost invariant = { λ index. IsInOrder (record { rows = map row_of index.rows.rows; next = index.next }) };
}

impl BoxIndex {
    ghost use Rattle.box_index.specs.Row.{row_of, IsInOrder};

    /// The index of a log without entries.
    pub fn empty(alloc: Global) -> Result<BoxIndex, NoMemory>
        ensures { IfOk result (λ index. index ≡ record { meaning = box_meaning []; room = 0 }) }
    {
        Ok(BoxIndex {
            rows: Pieces::empty(alloc),
            next: 1,
        })
    }

    /// UIDs rise and lie below the next one.
    pub fn known_facts(&self)
        ensures { IsInOrder self.now.meaning }
    {
        let _ = &self.rows;
    }

    /// How many messages are listed.
    pub fn length(&self) -> u32
        ensures { result ≡ length self.now.meaning.rows }
    {
        self.rows.length()
    }

    /// The UID that the next message gets. None exactly after the greatest UID, 4,294,967,294.
    pub fn next_uid(&self) -> Option<Uid>
        ensures some { IfSome result (λ uid. uid.0 ≡ self.now.meaning.next) }
        ensures none { IsNone result ↔ (self.now.meaning.next ≡ 4294967295) }
    {
        if self.next <= LAST_UID {
            Some(Uid(self.next))
        } else {
            None
        }
    }

    /// The listed messages in UID order, by places from 0. None exactly past the end.
    pub fn row_at(&self, place: u32) -> Option<&BoxRow>
        ensures { option_map row_of (option_copied result) ≡ slice_get self.now.meaning.rows place }
    {
        self.rows.row_at(place as usize)
    }

    /// The listed messages in UID order.
    pub fn rows(&self) -> BoxRows<'_>
        ensures { map row_of result ≡ self.now.meaning.rows }
    {
        self.rows.rows()
    }

    /// The listed message with this UID. None if and only if there is none.
    pub fn find(&self, uid: Uid) -> Option<&BoxRow>
        ensures { option_map row_of (option_copied result) ≡ row_at self.now.meaning uid.0 }
    {
        self.rows.find(uid)
    }

    /// Whether an entry fits behind those so far.
    pub fn fits(&self, entry: &BoxEntry) -> bool
        ensures { IsTrue result ↔ BoxFits self.now.meaning entry.now }
    {
        match entry {
            BoxEntry::N { next } => self.next <= *next && *next >= 1,
            BoxEntry::A {
                uid,
                flags,
                size,
                words,
                ..
            } => {
                self.next <= uid.0
                    && uid.0 <= LAST_UID
                    && *flags <= 31
                    && *size <= MOST_OCTETS
                    && self.rows.length() < MOST_ROWS
                    && are_words(words.as_slice())
            }
            BoxEntry::F { uid, flags } => self.find(*uid).is_some() && *flags <= 31,
            BoxEntry::K { uid, words } => self.find(*uid).is_some() && are_words(words.as_slice()),
            BoxEntry::R { uid } => self.find(*uid).is_some(),
        }
    }

    /// Makes room for one message at least. If there is room already, no memory is taken.
    ///
    /// At the limit of messages too: the answer is Ok or out of memory, although no further message fits.
    pub fn reserve_row(&mut self) -> Result<(), NoMemory>
        ensures ok { OnOk result (1 ≤ self.new.room) }
        ensures err { OnErr result (self.new ≡ self.old) }
        ensures full { IsErr result → self.old.room ≡ 0 }
        ensures no_less { self.old.room ≤ self.new.room }
        ensures same { self.new.meaning ≡ self.old.meaning }
    {
        self.rows.reserve()
    }

    /// Makes room for so many messages at least, no more than 1,024. If there is room already, no memory is taken.
    pub fn reserve_rows(&mut self, rows: usize) -> Result<(), NoMemory>
        requires { rows ≤ 1024 }
        ensures ok { OnOk result (rows ≤ self.new.room) }
        ensures err { OnErr result (self.new ≡ self.old) }
        ensures full { IsErr result → self.old.room < rows }
        ensures no_less { self.old.room ≤ self.new.room }
        ensures same { self.new.meaning ≡ self.old.meaning }
    {
        self.rows.reserve_rows(rows)
    }

    /// Takes in an entry that fits: its keywords go into the row. Only an entry that adds a message takes memory, and only
    /// if there is no room for it; without it the index stays.
    pub fn apply(&mut self, entry: BoxEntry) -> Result<(), NoMemory>
        requires { BoxFits self.old.meaning entry }
        ensures ok { OnOk result (self.new.meaning ≡ box_applied entry self.old.meaning) }
        ensures err { OnErr result (self.new ≡ self.old) }
        ensures added_only { IsErr result → row_made entry ≢ [] }
        ensures full { IsErr result → self.old.room ≡ 0 }
        // A message that is added takes one place at most, and any other entry none.
        ensures room { self.old.room ≤ self.new.room + length (row_made entry) }
    {
        match entry {
            BoxEntry::N { next } => {
                self.next = next;
            }
            BoxEntry::A {
                uid,
                flags,
                time,
                size,
                map_uid,
                guid,
                words,
            } => {
                let row = BoxRow {
                    uid,
                    flags: known_flags(flags),
                    size,
                    time,
                    guid,
                    map_uid,
                    words: Words::of(words),
                };
                self.rows.reserve()?;
                self.rows.push(row);
                self.next = uid.0 + 1;
            }
            BoxEntry::F { uid, flags } => {
                self.rows.change(uid, RowChange::Flags(known_flags(flags)));
            }
            BoxEntry::K { uid, words } => {
                self.rows.change(uid, RowChange::Words(Words::of(words)));
            }
            BoxEntry::R { uid } => {
                self.rows.remove(uid);
            }
        }
        Ok(())
    }
}

/// The flags of bits that are flags.
fn known_flags(bits: u8) -> Flags
    requires { bits ≤ 31 }
    ensures { result ≡ bits }
{
    flags_of(bits).unwrap()
}
