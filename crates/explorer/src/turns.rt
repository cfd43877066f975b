// A run over a folder in memory, with each call of the system going otherwise in turn, and with the process ended at each.
use crate::runs::{Run, perform_in};
use crate::seen::{Seen, States};
use crate::streams::Streams;
use crate::trial::{Trial, ended};
use case_text::Report;
use folder_mem::{BareFolder, Crash, Turn};
use mdbox_base::{NoMemory, Octets, Seq};
use std::alloc::Global;

/// How many mixes of names and octets are looked at after a crash.
const MOST: u64 = 16;

/// A folder in which a run has ended, and what was seen after it.
#[derive(Drop)]
struct Looked {
    /// All that was done to it.
    record: Octets,
    seen: Seen,
}

/// A trial, what its watches print before the run and after it, and the folder before it.
#[derive(Drop)]
struct Tried<'x> {
    trial: Trial<'x>,
    states: States<'x>,
    start: &'x Crash,
    /// The folder after the run, if each call goes well.
    ran: &'x BareFolder,
    /// The folders that were looked at, so that none is looked at twice.
    looked: Vec<Looked>,
}

/// Which ends were seen, each told once.
#[derive(Drop)]
struct Ends {
    name: &'static str,
    texts: Vec<String>,
}

/// What runs with these words print, one after another, each in a process of its own, and the folder after them.
fn watched_in(
    alloc: Global,
    folder: BareFolder,
    watches: &[Vec<String>],
) -> Result<(Octets, BareFolder), NoMemory> {
    let mut folder = folder;
    let mut text = Octets::empty(alloc);
    for words in watches {
        let run = Run {
            words: words.as_slice(),
            input: b"",
        };
        let mut streams = Streams::sound(alloc, run.input)?;
        let (left, _) = perform_in(alloc, folder, run, &mut streams);
        folder = left.kill()?;
        text.push_all(streams.printed())?;
    }
    Ok((text, folder))
}

/// Tells how the run ends for each call that goes otherwise, and what is seen after it and after an end of the process, whatever a
/// crash then leaves.
pub fn explore_turns(
    trial: Trial<'_>,
    folder: &BareFolder,
    report: &mut Report,
) -> Result<(), NoMemory> {
    let alloc = trial.alloc;
    let start = folder.crash()?;
    let (before, _) = watched_in(alloc, start.image(0)?, trial.watches)?;
    let mut streams = Streams::sound(alloc, trial.run.input)?;
    let whole = start.image(0)?.going(Seq::empty(alloc), 0);
    let (ran, _) = perform_in(alloc, whole, trial.run, &mut streams);
    let (after, _) = watched_in(alloc, ran.crash()?.image(0)?, trial.watches)?;
    let mut tried = Tried {
        trial,
        states: States {
            before: before.as_slice(),
            between: trial.between,
            after: after.as_slice(),
        },
        start: &start,
        ran: &ran,
        looked: Vec::new(alloc),
    };
    tried.half_done(report)?;
    tried.failed(report)?;
    tried.kills(report)
}

impl Tried<'_> {
    /// Tells how the run ends if each read or write does half, or is interrupted.
    fn half_done(&mut self, report: &mut Report) -> Result<(), NoMemory> {
        let ran = self.ran;
        self.turns(ran.partial(), Turn::Half, "half", report)?;
        self.turns(ran.partial(), Turn::Interrupted, "interrupted", report)
    }

    /// Tells how the run ends if each call is refused, or fails though it was done.
    fn failed(&mut self, report: &mut Report) -> Result<(), NoMemory> {
        let ran = self.ran;
        let mut all = Vec::new(self.trial.alloc);
        for call in 1..=ran.calls() {
            all.push(call)?;
        }
        self.turns(&all, Turn::Refused, "refused", report)?;
        self.turns(ran.changing(), Turn::Broken, "broken", report)
    }

    /// Tells how the run ends if each of these calls goes so.
    fn turns(
        &mut self,
        calls: &[u64],
        turn: Turn,
        name: &'static str,
        report: &mut Report,
    ) -> Result<(), NoMemory> {
        let mut ends = Ends::of(self.trial.alloc, name);
        for call in calls {
            let turns = Seq::of(vec![in self.trial.alloc; (*call, turn)]?);
            let end = self.end(turns, report)?;
            ends.add(end)?;
        }
        ends.put(report.found())
    }

    /// Tells what is seen if the process ends before each call that may change something, and after the last.
    fn kills(&mut self, report: &mut Report) -> Result<(), NoMemory> {
        let ran = self.ran;
        let mut ends = Ends::of(self.trial.alloc, "kill");
        for call in ran.changing() {
            let end = self.kill(*call, report)?;
            ends.add(end)?;
        }
        let last = self.kill(ran.calls().saturating_add(1), report)?;
        ends.add(last)?;
        ends.put(report.found())
    }

    /// What is seen if the process ends before this call.
    fn kill(&mut self, call: u64, report: &mut Report) -> Result<String, NoMemory> {
        let alloc = self.trial.alloc;
        let mut streams = Streams::sound(alloc, self.trial.run.input)?;
        let folder = self.start.image(0)?.going(Seq::empty(alloc), call);
        let (left, _) = perform_in(alloc, folder, self.trial.run, &mut streams);
        report.count_run();
        let seen = self.seen_after(left, report)?;
        Ok(String::from_str(alloc, seen.name())?)
    }

    /// How the run ends if calls go so, and what is then seen.
    fn end(&mut self, turns: Seq<(u64, Turn)>, report: &mut Report) -> Result<String, NoMemory> {
        let alloc = self.trial.alloc;
        let mut streams = Streams::sound(alloc, self.trial.run.input)?;
        let folder = self.start.image(0)?.going(turns, 0);
        let (left, status) = perform_in(alloc, folder, self.trial.run, &mut streams);
        report.count_run();
        let seen = self.seen_after(left, report)?;
        ended(alloc, status, &streams, seen)
    }

    /// What is seen after a run that left this folder. It is looked at only if none like it was.
    fn seen_after(&mut self, left: BareFolder, report: &mut Report) -> Result<Seen, NoMemory> {
        let record = left.record()?;
        for looked in &self.looked {
            if looked.record.as_slice() == record.as_slice() {
                return Ok(looked.seen);
            }
        }
        let seen = self.look(left, report)?;
        if seen.is_wrong() {
            report.never();
        }
        self.looked.push(Looked { record, seen })?;
        Ok(seen)
    }

    /// What a new process sees, and what one sees after a crash. What an opening has shown stays, unless a sync has failed before:
    /// a crash after it shows the same.
    fn look(&self, left: BareFolder, report: &mut Report) -> Result<Seen, NoMemory> {
        let mut seen = Seen::NOTHING;
        let is_sound = left.is_sound();
        self.note_images(&left, self.states, &mut seen, report)?;
        let (text, opened) = watched_in(self.trial.alloc, left.kill()?, self.trial.watches)?;
        seen.note(self.states, text.as_slice());
        if is_sound {
            let shown = States {
                before: text.as_slice(),
                between: text.as_slice(),
                after: text.as_slice(),
            };
            let mut kept = Seen::NOTHING;
            self.note_images(&opened, shown, &mut kept, report)?;
            seen.join(kept);
        }
        Ok(seen)
    }

    /// Notes what is seen after a crash, for each mix of names and octets that it may leave.
    fn note_images(
        &self,
        left: &BareFolder,
        states: States<'_>,
        seen: &mut Seen,
        report: &mut Report,
    ) -> Result<(), NoMemory> {
        let crash = left.crash()?;
        let mixes = crash.mixes();
        for number in 0..mixes.min(MOST) {
            let image = crash.image(spread(number, mixes))?;
            let (text, _) = watched_in(self.trial.alloc, image, self.trial.watches)?;
            seen.note(states, text.as_slice());
            report.count_image();
        }
        Ok(())
    }
}

/// The mix with this number, if not all are looked at: they are spread over all.
fn spread(number: u64, mixes: u64) -> u64 {
    let step = (mixes / MOST).max(1);
    number.saturating_mul(step).saturating_add(number % step)
}

impl Ends {
    fn of(alloc: Global, name: &'static str) -> Ends {
        Ends {
            name,
            texts: Vec::new(alloc),
        }
    }

    fn add(&mut self, text: String) -> Result<(), NoMemory> {
        if !self
            .texts
            .iter()
            .any(|known| known.as_str() == text.as_str())
        {
            self.texts.push(text)?;
        }
        Ok(())
    }

    /// A line for each, in order.
    fn put(self, out: &mut String) -> Result<(), NoMemory> {
        let mut texts = self.texts;
        texts.sort()?;
        for text in &texts {
            out.push_str("~ ")?;
            out.push_str(self.name)?;
            out.push_str(": ")?;
            out.push_str(text.as_str())?;
            out.push_str("\n")?;
        }
        Ok(())
    }
}
