// A run with each call of the disk failing in turn, and with a crash after each.
use crate::runs::{Run, copy_of, perform, watched};
use crate::seen::{Seen, States};
use crate::streams::Streams;
use case_text::{Report, Spans};
use disk_mem::{Choice, MemDisk};
use mdbox_base::{NoMemory, Seq};
use std::alloc::Global;

/// What a crash may leave of the writes since the last syncs: nothing, everything, and two that are torn.
const CHOICES: [Choice; 4] = [Choice::Old, Choice::New, Choice::Torn(1), Choice::Torn(255)];

/// A run that is tried, and what is looked at after it.
#[derive(Clone, Copy)]
pub struct Trial<'x> {
    pub alloc: Global,
    pub run: Run<'x>,
    /// The words of the runs whose output is looked at.
    pub watches: &'x [Vec<String>],
    /// What these print in the state between that the case allows.
    pub between: &'x [u8],
}

/// A trial, and what its watches print before the run and after it.
#[derive(Clone, Copy)]
struct Known<'x> {
    trial: Trial<'x>,
    states: States<'x>,
}

impl Trial<'_> {
    /// Tells how the run ends for each call that fails, and what each crash leaves.
    pub fn explore(self, disk: &MemDisk, report: &mut Report) -> Result<(), NoMemory> {
        let alloc = self.alloc;
        let before = watched(alloc, copy_of(alloc, disk)?, self.watches)?;
        let mut streams = Streams::sound(alloc, self.run.input)?;
        let (ran, _) = perform(alloc, copy_of(alloc, disk)?, self.run.words, &mut streams);
        let after = watched(alloc, copy_of(alloc, &ran)?, self.watches)?;
        let known = Known {
            trial: self,
            states: States {
                before: before.as_slice(),
                between: self.between,
                after: after.as_slice(),
            },
        };
        known.faults(disk, ran.calls(), report)?;
        known.crashes(&ran, report)
    }
}

impl Known<'_> {
    /// Tells how the run ends if each of so many calls fails, and what an image then shows.
    fn faults(self, disk: &MemDisk, calls: u64, report: &mut Report) -> Result<(), NoMemory> {
        let mut spans = Spans::of(self.trial.alloc, "fault");
        for call in 1..=calls {
            let end = self.fault(disk, call, report)?;
            spans.add(call, end)?;
        }
        spans.put(report.found())
    }

    /// How the run ends on a copy of this disk if this call fails.
    fn fault(self, disk: &MemDisk, call: u64, report: &mut Report) -> Result<String, NoMemory> {
        let alloc = self.trial.alloc;
        let fails = Seq::of(vec![in alloc; call]?);
        let mut streams = Streams::sound(alloc, self.trial.run.input)?;
        let start = copy_of(alloc, disk)?.failing(fails);
        let (left, status) = perform(alloc, start, self.trial.run.words, &mut streams);
        report.count_run();
        let seen = self.images(&left, left.calls(), report)?;
        ended(alloc, status, &streams, seen)
    }

    /// Tells what each crash leaves of the run.
    fn crashes(self, ran: &MemDisk, report: &mut Report) -> Result<(), NoMemory> {
        let mut spans = Spans::of(self.trial.alloc, "crash");
        for calls in 0..=ran.calls() {
            let seen = self.images(ran, calls, report)?;
            spans.add(calls, String::from_str(self.trial.alloc, seen.name())?)?;
        }
        spans.put(report.found())
    }

    /// What the images show that a crash leaves when so many calls had run.
    fn images(self, disk: &MemDisk, calls: u64, report: &mut Report) -> Result<Seen, NoMemory> {
        let mut seen = Seen::NOTHING;
        for choice in CHOICES {
            if calls <= disk.calls() {
                let image = disk.image(self.trial.alloc, calls, choice)?;
                let text = watched(self.trial.alloc, image, self.trial.watches)?;
                seen.note(self.states, text.as_slice());
                report.count_image();
            }
        }
        if seen.is_wrong() {
            report.never();
        }
        Ok(seen)
    }
}

/// The status of a run, what it printed and said, and what was seen after it.
pub fn ended(alloc: Global, status: u8, streams: &Streams, seen: Seen) -> Result<String, NoMemory> {
    let mut text = String::new(alloc);
    push_text(&mut text, streams.printed())?;
    push_text(&mut text, streams.said())?;
    let text = text.as_str();
    let name = seen.name();
    Ok(format!(in alloc; "{status} {text}{name}")?)
}

/// Adds the lines of a text, a mark after each.
fn push_text(out: &mut String, octets: &[u8]) -> Result<(), NoMemory> {
    let Ok(text) = str::from_utf8(octets) else {
        out.push_str("octets; ")?;
        return Ok(());
    };
    for line in text.lines() {
        out.push_str(line)?;
        out.push_str("; ")?;
    }
    Ok(())
}
