// What is known of one storage file.
ghost use Rattle.std.specs.Prelude.{◌≡◌, ◌↔◌, IsTrue, IsSome};
ghost use Rattle.storage_files.specs.Files.{MayBeTakenFor, IsUntakenFile, IsOpenFile, change_of};

use mdbox_base::FileNo;

/// How many octets a storage file is filled up to. A longer message has a file to itself.
pub(crate) const FULL: u64 = 10_485_760;

/// A storage file as an opening finds it; `end` is its length in octets.
#[derive(Clone, Copy, Debug, PartialEq, Eq)]
pub struct FileState {
    pub file: FileNo,
    pub end: u64,
    /// Nothing is added to it, ever.
    pub sealed: bool,
    /// Nothing is added to it until the next opening, since an offset past its end is part of a GUID that was given.
    pub barred: bool,
}

/// A storage file as it is known. It ends at `end` octets, or has no end as long as it isn't made.
#[derive(Clone, Copy, Debug, PartialEq, Eq)]
pub struct MailFile {
    pub file: FileNo,
    pub end: Option<u64>,
    pub sealed: bool,
    pub barred: bool,
    /// Somebody has taken it, to add to it.
    pub taken: bool,
    /// Where the octets begin that are being placed in it in pieces, if some are.
    pub begun: Option<u64>,
    /// Somebody has taken it to empty it: what is still needed of it is copied elsewhere, and then it is removed.
    pub emptied: bool,
    /// How many readers need its octets, whatever becomes of its records. It isn't removed while there is one.
    pub pins: u32,
    /// No record has its region in it any more, and it is removed as soon as it has no pin.
    pub doomed: bool,
}

/// The storage file that was taken for a message.
#[derive(Clone, Copy, Debug, PartialEq, Eq)]
pub enum Take {
    /// One that is there.
    Known(FileNo),
    /// One that is to be made.
    New(FileNo),
    /// None: there is no room, and the numbers are used up.
    Full,
}

/// What changes of what is known of a file.
#[derive(Clone, Copy, Debug, PartialEq, Eq)]
pub(crate) enum FileChange {
    /// It ends there.
    Ends(u64),
    /// Somebody has taken it, to add to it.
    Taken,
    /// Somebody has taken it, to empty it.
    Emptied,
    /// It is given back, and placing octets in it in pieces has ended.
    GivenBack,
    /// Placing in pieces begins at its end.
    PlacingBegun,
    /// Placing in pieces has ended.
    PlacingEnded,
    /// It has so many pins.
    Pins(u32),
    /// It is doomed, and nobody has taken it any more.
    Doomed,
}

impl FileChange {
    /// The file with this change.
    pub(crate) fn of(self, f: MailFile) -> MailFile
        ensures { result ≡ change_of self f }
    {
        match self {
            FileChange::Ends(end) => MailFile {
                end: Some(end),
                ..f
            },
            FileChange::Taken => MailFile { taken: true, ..f },
            FileChange::Emptied => MailFile { emptied: true, ..f },
            FileChange::GivenBack => MailFile {
                taken: false,
                begun: None,
                emptied: false,
                ..f
            },
            FileChange::PlacingBegun => MailFile { begun: f.end, ..f },
            FileChange::PlacingEnded => MailFile { begun: None, ..f },
            FileChange::Pins(pins) => MailFile { pins, ..f },
            FileChange::Doomed => MailFile {
                taken: false,
                begun: None,
                emptied: false,
                doomed: true,
                ..f
            },
        }
    }
}

impl MailFile {
    /// Whether nobody has taken the file and it has room for so many octets.
    pub(crate) fn has_room(&self, size: u32) -> bool
        ensures { IsTrue result ↔ MayBeTakenFor size self.now }
    {
        match self.end {
            Some(end) => self.is_open() && end <= FULL && u64::from(size) <= FULL - end,
            None => false,
        }
    }

    /// Whether nobody has taken the file, and messages may be added to it.
    fn is_open(&self) -> bool
        ensures { IsTrue result ↔ IsOpenFile self.now }
    {
        self.is_free() && !self.sealed && !self.barred
    }

    /// Whether nobody has taken the file, and it isn't doomed.
    fn is_free(&self) -> bool
        ensures { IsTrue result ↔ IsUntakenFile self.now }
    {
        !self.taken && !self.emptied && !self.doomed
    }

    /// Whether the file is there.
    pub(crate) fn is_made(&self) -> bool
        ensures { IsTrue result ↔ IsSome self.now.end }
    {
        self.end.is_some()
    }
}
