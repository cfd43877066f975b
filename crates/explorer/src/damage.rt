// Octets of which each is changed, or which are cut at each length.
use crate::files::put;
use crate::runs::{Run, copy_of, perform};
use crate::streams::Streams;
use crate::trouble::Trouble;
use case_text::{Report, Spans};
use disk_mem::MemDisk;
use disk_model::FileName;
use std::alloc::Global;

/// What is damaged.
#[derive(Clone, Copy)]
pub enum Damaged {
    /// A file.
    File(FileName),
    /// The input.
    Input,
}

/// What is damaged, its octets, and the run that is done then.
#[derive(Clone, Copy)]
pub struct Damage<'x> {
    pub alloc: Global,
    pub damaged: Damaged,
    pub octets: &'x [u8],
    pub run: Run<'x>,
}

impl Damage<'_> {
    /// Tells what the run answers for each octet that is changed, in its last bit and in all of them.
    pub fn flips(self, disk: &MemDisk, report: &mut Report) -> Result<(), Trouble> {
        self.flip(disk, "last bit", 1, report)?;
        self.flip(disk, "all bits", 255, report)
    }

    fn flip(
        self,
        disk: &MemDisk,
        name: &'static str,
        mask: u8,
        report: &mut Report,
    ) -> Result<(), Trouble> {
        let mut spans = Spans::of(self.alloc, name);
        for place in 0..self.octets.len() {
            let mut octets = Vec::from_slice(self.alloc, self.octets)?;
            if let Some(octet) = octets.get_mut(place) {
                *octet ^= mask;
            }
            let answer = self.answer(disk, octets.as_slice(), place as u64)?;
            spans.add(place as u64, answer)?;
            report.count_run();
        }
        spans.put(report.found())?;
        Ok(())
    }

    /// Tells what the run answers for each shorter length.
    pub fn cuts(self, disk: &MemDisk, report: &mut Report) -> Result<(), Trouble> {
        let mut spans = Spans::of(self.alloc, "cut");
        for length in 0..self.octets.len() {
            let (prefix, _) = self.octets.split_at(length);
            let answer = self.answer(disk, prefix, length as u64)?;
            spans.add(length as u64, answer)?;
            report.count_run();
        }
        spans.put(report.found())?;
        Ok(())
    }

    /// What the run answers for these octets: its status, and the first line that it prints or says. A number at its end that is
    /// the place is told as `HERE`.
    fn answer(self, disk: &MemDisk, octets: &[u8], place: u64) -> Result<String, Trouble> {
        let (status, streams) = self.ran(disk, octets)?;
        let text = first_line(streams.printed(), streams.said());
        let here = format!(in self.alloc; " {place}")?;
        Ok(match text.strip_suffix(here.as_str()) {
            Some(words) => format!(in self.alloc; "{status} {words} HERE")?,
            None => format!(in self.alloc; "{status} {text}")?,
        })
    }

    /// The run with these octets in place of the others.
    fn ran(self, disk: &MemDisk, octets: &[u8]) -> Result<(u8, Streams), Trouble> {
        let mut streams = Streams::sound(self.alloc, self.input(octets))?;
        let mut disk = copy_of(self.alloc, disk)?;
        if let Damaged::File(name) = self.damaged {
            put(&mut disk, name, octets, true)?;
        }
        let (_left, status) = perform(self.alloc, disk, self.run.words, &mut streams);
        Ok((status, streams))
    }

    /// The input of the run, where these octets are in place of the others.
    fn input<'y>(&'y self, octets: &'y [u8]) -> &'y [u8] {
        match self.damaged {
            Damaged::File(_) => self.run.input,
            Damaged::Input => octets,
        }
    }
}

/// The first line of what was printed, or of what was said if nothing was.
fn first_line<'x>(printed: &'x [u8], said: &'x [u8]) -> &'x str {
    let text = if printed.is_empty() { said } else { printed };
    if text.is_empty() {
        return "nothing";
    }
    match str::from_utf8(text) {
        Ok(text) => text.lines().next().unwrap_or(""),
        Err(_) => "octets",
    }
}
