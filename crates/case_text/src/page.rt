// The lines of a file of cases.
use crate::base64_lines::base64_lines;
use crate::error::CaseError;
use crate::numbered::Numbered;
use crate::report::Report;
use crate::texts::Texts;
use mdbox_base::NoMemory;
use std::alloc::Global;

/// The octets that lines have named, and what lines want.
#[derive(Drop)]
pub struct Page {
    alloc: Global,
    pub texts: Texts,
    pub report: Report,
}

/// A command: its first word, and what stands after it.
#[derive(Clone, Copy)]
pub struct Command<'x> {
    pub word: &'x str,
    pub rest: &'x str,
}

/// What is to be done for a line.
pub enum Taken<'x> {
    /// Nothing.
    Nothing,
    /// This command.
    One(Command<'x>),
    /// A command for each of some numbers.
    Each(Numbered<'x>),
}

impl<'x> Command<'x> {
    /// The command of a line.
    pub fn of(line: &'x str) -> Command<'x> {
        let (word, rest) = line.split_once(' ').unwrap_or((line, ""));
        Command { word, rest }
    }

    /// The second word, and what stands after it.
    pub fn named(self) -> (&'x str, &'x str) {
        self.rest.split_once(' ').unwrap_or((self.rest, ""))
    }
}

/// Whether a line says what is wanted of the command before it.
fn is_wanted(line: &str) -> bool {
    for mark in [". ", "! ", "= ", "x ", "~ "] {
        if line.starts_with(mark) {
            return true;
        }
    }
    line == "." || line == "!"
}

impl Page {
    pub fn empty(alloc: Global) -> Page {
        Page {
            alloc,
            texts: Texts::empty(alloc),
            report: Report::empty(alloc),
        }
    }

    /// Takes a line: notes what it wants, or says what is to be done.
    pub fn take<'x>(&mut self, number: u64, line: &'x str) -> Result<Taken<'x>, CaseError> {
        if is_wanted(line) {
            self.report.want(line)?;
            return Ok(Taken::Nothing);
        }
        self.report.settle(number)?;
        let command = Command::of(line);
        match command.word {
            "" | "#" => Ok(Taken::Nothing),
            "for" => match Numbered::read(command.rest) {
                Some(each) => Ok(Taken::Each(each)),
                None => Err(CaseError::BadLine(number)),
            },
            _ => Ok(Taken::One(command)),
        }
    }

    /// Ends the last command.
    pub fn end(&mut self) -> Result<(), CaseError> {
        Ok(self.report.settle(0)?)
    }

    /// Does a command that names octets. None if it is another, false if it isn't written as it is to be.
    pub fn define(&mut self, command: Command<'_>) -> Result<Option<bool>, NoMemory> {
        let (name, rest) = command.named();
        let done = match command.word {
            "text" => self.set(name, rest)?,
            "log" => self.set_log(name, rest)?,
            "more" => self.add(name, 1, rest)?,
            "entry" => self.add_entry(name, rest)?,
            "many" => self.add_many(name, rest)?,
            "part" => self.set_part(name, rest)?,
            "base64" => self.set_base64(name, rest)?,
            _ => return Ok(None),
        };
        Ok(Some(done))
    }

    /// Names the octets that a line writes.
    fn set(&mut self, name: &str, line: &str) -> Result<bool, NoMemory> {
        let Some(octets) = self.texts.octets(line)? else {
            return Ok(false);
        };
        self.texts.set(name, octets)?;
        Ok(true)
    }

    /// Names the head of a log that a line writes, behind the first words of a log of its kind.
    fn set_log(&mut self, name: &str, line: &str) -> Result<bool, NoMemory> {
        let Some(head) = self.texts.octets(line)? else {
            return Ok(false);
        };
        let mut log = Vec::from_slice(self.alloc, first_words(head.as_slice()))?;
        log.extend_from_slice(head.as_slice())?;
        self.texts.set(name, log)?;
        Ok(true)
    }

    /// Adds the octets that a line writes so many times.
    fn add(&mut self, name: &str, count: u64, line: &str) -> Result<bool, NoMemory> {
        let Some(octets) = self.texts.octets(line)? else {
            return Ok(false);
        };
        self.texts.add(name, octets.as_slice(), count)?;
        Ok(true)
    }

    /// Adds an entry to a log: an open gate, the length, and the octets.
    fn add_entry(&mut self, name: &str, line: &str) -> Result<bool, NoMemory> {
        let Some(octets) = self.texts.octets(line)? else {
            return Ok(false);
        };
        let mut entry = Vec::from_slice(self.alloc, b"\x01")?;
        entry.extend_from_slice(&(octets.len() as u64).to_be_bytes()[4..])?;
        entry.extend_from_slice(octets.as_slice())?;
        self.texts.add(name, entry.as_slice(), 1)?;
        Ok(true)
    }

    /// The count, and the octets that are added so many times.
    fn add_many(&mut self, name: &str, line: &str) -> Result<bool, NoMemory> {
        let (count, line) = line.split_once(' ').unwrap_or((line, ""));
        match count.parse::<u64>() {
            Ok(count) => self.add(name, count, line),
            Err(_) => Ok(false),
        }
    }

    /// The name of octets, and the place and the number of those that are named.
    fn set_part(&mut self, name: &str, line: &str) -> Result<bool, NoMemory> {
        let (whole, line) = line.split_once(' ').unwrap_or((line, ""));
        let (place, count) = line.split_once(' ').unwrap_or((line, ""));
        let (Ok(place), Ok(count)) = (place.parse::<usize>(), count.parse::<usize>()) else {
            return Ok(false);
        };
        let part = match self.texts.find(whole) {
            Some(octets) => part_of(self.alloc, octets, place, count)?,
            None => return Ok(false),
        };
        self.texts.set(name, part)?;
        Ok(true)
    }

    /// The length of a line, and the octets whose base64 text is named.
    fn set_base64(&mut self, name: &str, line: &str) -> Result<bool, NoMemory> {
        let (width, line) = line.split_once(' ').unwrap_or((line, ""));
        let Ok(width) = width.parse::<usize>() else {
            return Ok(false);
        };
        let Some(octets) = self.texts.octets(line)? else {
            return Ok(false);
        };
        let lines = base64_lines(self.alloc, octets.as_slice(), width)?;
        self.texts.set(name, lines)?;
        Ok(true)
    }
}

/// The first words of a log as it is written, by the letter of its kind, which stands after the store's id.
fn first_words(head: &[u8]) -> &'static [u8] {
    match head.get(8) {
        Some(b'B') => b"MDBXLOG2",
        _ => b"MDBXLOG1",
    }
}

/// So many octets from a place on, or those that there are.
fn part_of(alloc: Global, octets: &[u8], place: usize, count: usize) -> Result<Vec<u8>, NoMemory> {
    let mut part = Vec::new(alloc);
    for octet in octets.iter().skip(place).take(count) {
        part.push(*octet)?;
    }
    Ok(part)
}
