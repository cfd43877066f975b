// Why an event didn't do its part.
ghost use Rattle.std.specs.Prelude.{◌≡◌};
ghost use Rattle.mail_ops.specs.Event.{refusal_told, told_as};
ghost use Rattle.mail_ops.specs.declared.event.NotDone.TheVariants as not_done;

use mdbox_base::{Did, Half, NoMemory, Refusal};

/// Why an event of a running store didn't do its part.
#[derive(Clone, Copy, Debug, PartialEq, Eq)]
pub enum NotDone {
    /// A check refuses it.
    Refused(Refusal),
    /// Out of memory: nothing has changed.
    NoMemory,
    /// A change of the disk failed: the store is stopped.
    Stopped,
}

impl NotDone {
    /// The refusal that is replied.
    pub(crate) fn refusal(self) -> Refusal
        ensures { result ≡ refusal_told self }
    {
        match self {
            NotDone::Refused(why) => why,
            NotDone::NoMemory => Refusal::NoMemory,
            NotDone::Stopped => Refusal::Stopped,
        }
    }

    /// What the event did, of which a failed change makes `fault`.
    pub(crate) fn did(self, half: Half, fault: Did) -> Did
        ensures { result ≡ told_as half fault self }
    {
        match self {
            NotDone::Refused(_) => Did::Step(half),
            NotDone::NoMemory => Did::Quiet,
            NotDone::Stopped => fault,
        }
    }
}

impl From<Refusal> for NotDone {
    ghost from_gives = { λ why error. error ≡ not_done.Refused why };

    fn from(why: Refusal) -> NotDone {
        NotDone::Refused(why)
    }
}

impl From<NoMemory> for NotDone {
    ghost from_gives = { λ _ error. error ≡ not_done.NoMemory };

    fn from(_error: NoMemory) -> NotDone {
        NotDone::NoMemory
    }
}
