// The lines of cases.
use crate::bodies::tell_rejoined;
use crate::entries::{tell_box, tell_map, tell_root};
use crate::lists::{step, with_message};
use crate::logs::{tell_cuts, tell_log};
use crate::mail::{tell_base64, tell_fields, tell_lines, tell_parts, tell_prepared};
use crate::metadata::{tell_metadata, tell_refs};
use crate::numbers::{tell_decimal, tell_hex, tell_lower};
use crate::scripts::{tell_exercise, tell_moved, tell_script};
use crate::storage::{tell_header, tell_message, tell_scan};
use case_text::{CaseError, Command, Counts, Page, Taken};
use mdbox_base::NoMemory;
use plain_lists::PlainLists;
use std::alloc::Global;

/// The cases of a file: what its lines have named and want, and the lists of the case.
#[derive(Drop)]
pub struct Cases {
    alloc: Global,
    page: Page,
    lists: PlainLists,
}

impl Cases {
    pub fn of(alloc: Global) -> Cases {
        Cases {
            alloc,
            page: Page::empty(alloc),
            lists: PlainLists::empty(alloc),
        }
    }

    pub fn counts(&self) -> Counts {
        self.page.report.counts()
    }

    /// What differs, in the form in which it is wanted.
    pub fn differences(&self) -> &str {
        self.page.report.differences()
    }

    /// Does the lines of a file of cases.
    pub fn play(&mut self, text: &str) -> Result<(), CaseError> {
        let mut number = 0u64;
        for line in text.lines() {
            number = number.saturating_add(1);
            self.line(number, line)?;
        }
        self.page.end()?;
        Ok(())
    }

    /// Does a line.
    fn line(&mut self, number: u64, line: &str) -> Result<(), CaseError> {
        match self.page.take(number, line)? {
            Taken::Nothing => Ok(()),
            Taken::One(command) => self.command(number, command),
            Taken::Each(each) => {
                for n in each.first..=each.last {
                    let text = each.line_at(self.alloc, n)?;
                    self.command(number, Command::of(text.as_str()))?;
                }
                Ok(())
            }
        }
    }

    fn command(&mut self, number: u64, command: Command<'_>) -> Result<(), CaseError> {
        let done = match self.page.define(command)? {
            Some(done) => done,
            None => self.does(command)?,
        };
        if done {
            Ok(())
        } else {
            Err(CaseError::BadLine(number))
        }
    }

    /// Does a command. False if it isn't written as it is to be.
    fn does(&mut self, command: Command<'_>) -> Result<bool, NoMemory> {
        if command.word == "case" {
            self.page.report.begin(command.rest)?;
            self.lists = PlainLists::empty(self.alloc);
            return Ok(true);
        }
        self.page.report.count_run();
        match command.word {
            "rejoin" | "message" | "header" => self.of_words(command),
            "script" | "exercise" | "moved" | "gone" => self.of_script(command),
            "lists" => self.step(command.rest),
            _ => self.of_octets(command),
        }
    }

    /// A call over octets that have names.
    fn of_words(&mut self, command: Command<'_>) -> Result<bool, NoMemory> {
        let (texts, line) = (&self.page.texts, command.rest);
        let out = self.page.report.found();
        match command.word {
            "rejoin" => tell_rejoined(self.alloc, out, texts, line),
            "message" => tell_message(self.alloc, out, texts, line),
            _ => tell_header(self.alloc, out, texts, line),
        }
    }

    /// A script, or a reply of one.
    fn of_script(&mut self, command: Command<'_>) -> Result<bool, NoMemory> {
        let (texts, line) = (&self.page.texts, command.rest);
        let out = self.page.report.found();
        match command.word {
            "script" => tell_script(self.alloc, out, texts, line),
            "exercise" => tell_exercise(self.alloc, out, texts, line),
            word => tell_moved(self.alloc, out, texts, line, word == "gone"),
        }
    }

    /// A step of the list machine.
    fn step(&mut self, line: &str) -> Result<bool, NoMemory> {
        step(self.alloc, &mut self.lists, self.page.report.found(), line)
    }

    /// A call over the octets that the line writes.
    fn of_octets(&mut self, command: Command<'_>) -> Result<bool, NoMemory> {
        let Some(octets) = self.page.texts.octets(command.rest)? else {
            return Ok(false);
        };
        let octets = octets.as_slice();
        match command.word {
            "hello" => self.begin_lists(octets),
            "root" | "mailbox" | "old-mailbox" | "map" | "read-log" | "cuts" | "scan" => {
                self.of_files(command.word, octets)
            }
            "parts" | "prepare" | "fields" | "lines" | "recognise" => {
                self.of_mail(command.word, octets)
            }
            word => self.of_text(word, octets),
        }
    }

    /// Lists of an INBOX with one message.
    fn begin_lists(&mut self, octets: &[u8]) -> Result<bool, NoMemory> {
        match with_message(self.alloc, octets)? {
            Some(lists) => {
                self.lists = lists;
                Ok(true)
            }
            None => Ok(false),
        }
    }

    fn of_files(&mut self, word: &str, octets: &[u8]) -> Result<bool, NoMemory> {
        let out = self.page.report.found();
        match word {
            "root" => tell_root(self.alloc, out, octets)?,
            "mailbox" => tell_box(self.alloc, out, octets, 2)?,
            "old-mailbox" => tell_box(self.alloc, out, octets, 1)?,
            "map" => tell_map(self.alloc, out, octets)?,
            "read-log" => tell_log(self.alloc, out, octets)?,
            "cuts" => tell_cuts(self.alloc, out, octets)?,
            _ => tell_scan(self.alloc, out, octets)?,
        }
        Ok(true)
    }

    fn of_mail(&mut self, word: &str, octets: &[u8]) -> Result<bool, NoMemory> {
        let (alloc, texts) = (self.alloc, &self.page.texts);
        let out = self.page.report.found();
        match word {
            "parts" => return tell_parts(alloc, out, octets),
            "prepare" => return tell_prepared(alloc, out, texts, octets),
            "fields" => tell_fields(out, octets)?,
            "lines" => tell_lines(alloc, out, octets)?,
            _ => tell_base64(alloc, out, texts, octets)?,
        }
        Ok(true)
    }

    fn of_text(&mut self, word: &str, octets: &[u8]) -> Result<bool, NoMemory> {
        let (alloc, texts) = (self.alloc, &self.page.texts);
        let out = self.page.report.found();
        match word {
            "decimal" => tell_decimal(alloc, out, octets)?,
            "hex" => tell_hex(alloc, out, octets)?,
            "lower" => tell_lower(alloc, out, octets)?,
            "metadata" => tell_metadata(alloc, out, texts, octets)?,
            "refs" => tell_refs(alloc, out, octets)?,
            _ => return Ok(false),
        }
        Ok(true)
    }
}
