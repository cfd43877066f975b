// The places of a script's requests in the journal.
ghost use Rattle.std.specs.Prelude.{◌≡◌, ◌≢◌, ◌≤◌, ◌==◌, ℕ, All, Some, length, slice_get, take, if◌then◌else◌, IfOk};
ghost use Rattle.request_text.specs.BatchText.{places_told, refuses_copy, request_steps};
ghost use Rattle.request_text.specs.Steps.{with_place, AreStepsOf};
ghost use Rattle.request_text.specs.declared.places.Steps.{Steps};

use mdbox_base::{Half, JournalEntry, NoMemory, Refusal, Reply};
use std::alloc::Global;

/// Where the steps of a request stand in the journal, counted from 1.
#[derive(Clone, Copy, Debug, PartialEq, Eq)]
pub enum Places {
    /// The step, if the request has one.
    One(Option<u64>),
    /// The copy and the expunge of a move whose copy was made.
    Two(Option<u64>, Option<u64>),
}

/// Where a request's steps stand in the journal, whichever of them it has.
#[derive(Clone, Copy, Debug, PartialEq, Eq)]
pub struct Steps {
    pub whole: Option<u64>,
    pub copied: Option<u64>,
    pub removed: Option<u64>,
}

impl Steps {
    const NONE: Steps = Steps {
        whole: None,
        copied: None,
        removed: None,
    };

    /// The places of a request that replied so.
    pub fn places(self, given: &Reply) -> Places
        ensures { result ≡ places_told self given.now }
    {
        match self.copied {
            Some(_) if !is_copy_refused(given) => Places::Two(self.copied, self.removed),
            Some(copied) => Places::One(Some(copied)),
            None => Places::One(self.whole),
        }
    }

    /// The same, where a step of this half stands there; the first of a half counts.
    fn with(self, half: Half, place: u64) -> Steps
        ensures { result ≡ with_place half place self }
    {
        match half {
            Half::Whole => Steps {
                whole: self.whole.or(Some(place)),
                ..self
            },
            Half::CopyHalf => Steps {
                copied: self.copied.or(Some(place)),
                ..self
            },
            Half::ExpungeHalf => Steps {
                removed: self.removed.or(Some(place)),
                ..self
            },
        }
    }
}

/// Whether a reply refuses the copy of a move: there is no second step to come.
fn is_copy_refused(given: &Reply) -> bool
    ensures { result ≡ refuses_copy given.now }
{
    match given {
        Reply::Refused(Refusal::ReadFault | Refusal::Stopped) => false,
        Reply::Refused(_) => true,
        _ => false,
    }
}

/// Where the steps of so many requests stand in the journal.
pub fn steps_of(
    alloc: Global,
    journal: &[JournalEntry],
    count: usize,
) -> Result<Vec<Steps>, NoMemory>
    ensures { IfOk result (λ rows. AreStepsOf journal.now count rows.items) }
{
    let mut rows = vec![in alloc; Steps::NONE; count]?;
    for (at, entry) in journal.iter().enumerate() {
        note(&mut rows, *entry, at as u64 + 1);
    }
    Ok(rows)
}

/// Notes in the row of its request that an entry stands at this place. An entry of a request without a row is passed over.
fn note(rows: &mut [Steps], entry: JournalEntry, place: u64)
    ensures { (request : ℕ) (steps : Steps) → slice_get rows.old request ≡ Some steps →
        slice_get rows.new request ≡ Some (if entry.request == request then with_place entry.half place steps else steps) }
{
    let request = entry.request as usize;
    if request < rows.len() {
        rows[request] = rows[request].with(entry.half, place);
    }
}

/// Where the steps of a request stand in the journal, none of them among its first entries, of which there are so many.
pub fn steps_behind(journal: &[JournalEntry], before: usize, request: u32) -> Steps
    requires within { before ≤ length journal.now }
    requires own { All (λ entry. entry.request ≢ request) (take before journal.now) }
    ensures { result ≡ request_steps journal.now request }
{
    let mut steps = Steps::NONE;
    let mut at = before;
    while at < journal.len() {
        steps = noted(steps, journal[at], request, at as u64 + 1);
        at += 1;
    }
    steps
}

/// The steps, where an entry stands at this place, if it is one of the request.
fn noted(steps: Steps, entry: JournalEntry, request: u32, place: u64) -> Steps
    ensures { result ≡ (if entry.request == request then with_place entry.half place steps else steps) }
{
    if entry.request == request {
        steps.with(entry.half, place)
    } else {
        steps
    }
}
