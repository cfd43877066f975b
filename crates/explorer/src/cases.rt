// The lines of cases, done on a disk.
use crate::damage::{Damage, Damaged};
use crate::files::{clear, octets_of, push_paths, put};
use crate::folder::{CaseFolder, system_disk};
use crate::orders::{Orders, take_turns};
use crate::runs::{Run, perform, perform_altered};
use crate::setting::{Place, Setting};
use crate::streams::Streams;
use crate::trial::Trial;
use crate::trouble::Trouble;
use crate::two_lanes::Wrong;
use case_text::{Command, Counts, Page, Stream, Taken, push_shown};
use disk_mem::MemDisk;
use disk_model::{Disk, FileName};
use file_paths::name_of_path;
use mdbox_base::{NoMemory, Seq};
use std::alloc::Global;
use std::{fs, mem};

/// The cases of a file: what its lines have named and want, and the disk of the case.
#[derive(Drop)]
pub struct Cases {
    rt: HostRuntime,
    alloc: Global,
    page: Page,
    setting: Setting,
    disk: MemDisk,
    folder: CaseFolder,
    /// How many calls of the disk the last run made.
    calls: u64,
}

/// A run as a line has it: its words, its input, and the status that is wanted.
#[derive(Drop)]
struct Asked {
    words: Vec<String>,
    input: Vec<u8>,
    status: u8,
    /// Whether it is tried with each fault and crash too.
    starred: bool,
}

impl Cases {
    pub fn of(rt: HostRuntime) -> Result<Cases, Trouble> {
        let alloc = rt.alloc();
        Ok(Cases {
            rt,
            alloc,
            page: Page::empty(alloc),
            setting: Setting::none(alloc),
            disk: MemDisk::fresh(alloc)?,
            folder: CaseFolder::empty(alloc),
            calls: 0,
        })
    }

    pub fn counts(&self) -> Counts {
        self.page.report.counts()
    }

    /// What differs, in the form in which it is wanted.
    pub fn differences(&self) -> &str {
        self.page.report.differences()
    }

    /// Does the lines of the first file, which name octets.
    pub fn define(&mut self, text: &str) -> Result<(), Trouble> {
        for line in text.lines() {
            self.line(0, line)?;
        }
        Ok(())
    }

    /// Does the lines of a file of cases.
    pub fn play(&mut self, text: &str) -> Result<(), Trouble> {
        let mut number = 0u64;
        for line in text.lines() {
            number = number.saturating_add(1);
            self.line(number, line)?;
        }
        self.page.end()?;
        Ok(())
    }

    /// Does a line.
    fn line(&mut self, number: u64, line: &str) -> Result<(), Trouble> {
        match self.page.take(number, line)? {
            Taken::Nothing => Ok(()),
            Taken::One(command) => self.command(number, command),
            Taken::Each(each) => {
                for n in each.first..=each.last {
                    let text = each.line_at(self.alloc, n)?;
                    self.command(number, Command::of(text.as_str()))?;
                }
                Ok(())
            }
        }
    }

    fn command(&mut self, number: u64, command: Command<'_>) -> Result<(), Trouble> {
        let done = match self.page.define(command)? {
            Some(done) => done,
            None => self.does(command)?,
        };
        if done {
            Ok(())
        } else {
            Err(Trouble::BadLine(number))
        }
    }

    /// Does a command. False if it isn't written as it is to be.
    fn does(&mut self, command: Command<'_>) -> Result<bool, Trouble> {
        let rest = command.rest;
        match command.word {
            "case" => self.begin(rest),
            "real" => self.begin_real(),
            "folder" => {
                self.setting.place = Place::Folder;
                Ok(true)
            }
            "load" => self.load(command),
            "keep" => self.keep(command),
            "file" => self.lay(command, true),
            "loose" => self.lay(command, false),
            "remove" => self.remove(rest),
            "sync" => self.sync(),
            "show" => self.show(rest),
            "files" => self.files(),
            "calls" => self.tell_calls(),
            "damage" => self.damage(command, true),
            "cut" => self.damage(command, false),
            "watch" => self.watch(rest),
            "also" => self.set_between(rest),
            "before" => self.set_before(rest),
            "after" => self.set_after(rest),
            "orders" => self.orders(rest),
            "turns" => self.turns(command),
            "narrow" => {
                self.setting.narrow = true;
                Ok(true)
            }
            "held" => {
                self.folder.hold();
                Ok(true)
            }
            "fail" => Ok(self.setting.fail(rest)),
            "altered" => Ok(self.setting.alter(rest)),
            _ => self.run_line(command),
        }
    }

    /// Begins a case, with an empty disk in memory.
    fn begin(&mut self, title: &str) -> Result<bool, Trouble> {
        self.page.report.begin(title)?;
        self.disk = MemDisk::fresh(self.alloc)?;
        self.folder = CaseFolder::empty(self.alloc);
        self.setting = Setting::none(self.alloc);
        Ok(true)
    }

    /// Goes on in the folder of the system that the program runs in, whose files are removed.
    fn begin_real(&mut self) -> Result<bool, Trouble> {
        self.setting.place = Place::System;
        let mut disk = system_disk(self.rt);
        clear(&mut disk)?;
        disk.sync_names()?;
        Ok(true)
    }

    /// Names the octets of a file that lies beside the cases.
    fn load(&mut self, command: Command<'_>) -> Result<bool, Trouble> {
        let (name, path) = command.named();
        let octets = fs::read(&self.rt, path)?;
        self.page.texts.set(name, octets)?;
        Ok(true)
    }

    /// Names the octets of a file of the store.
    fn keep(&mut self, command: Command<'_>) -> Result<bool, Trouble> {
        let (name, path) = command.named();
        let Some(file) = name_of_path(path.as_bytes()) else {
            return Ok(false);
        };
        match self.octets(file)? {
            Some(octets) => {
                self.page.texts.set(name, octets)?;
                Ok(true)
            }
            None => Ok(false),
        }
    }

    /// The octets of a file of the store. None if it isn't there.
    fn octets(&mut self, name: FileName) -> Result<Option<Vec<u8>>, Trouble> {
        match self.setting.place {
            Place::Disk => octets_of(self.alloc, &mut self.disk, name),
            Place::Folder => self.folder.octets(name),
            Place::System => octets_of(self.alloc, &mut system_disk(self.rt), name),
        }
    }

    /// Lays out a file, synced or not.
    fn lay(&mut self, command: Command<'_>, synced: bool) -> Result<bool, Trouble> {
        let (path, text) = command.named();
        let Some(name) = name_of_path(path.as_bytes()) else {
            return Ok(false);
        };
        let Some(octets) = self.page.texts.octets(text)? else {
            return Ok(false);
        };
        let octets = octets.as_slice();
        match self.setting.place {
            Place::Disk => put(&mut self.disk, name, octets, synced)?,
            Place::Folder => self.folder.put(name, octets, synced)?,
            Place::System => put(&mut system_disk(self.rt), name, octets, synced)?,
        }
        Ok(true)
    }

    fn remove(&mut self, path: &str) -> Result<bool, Trouble> {
        let Some(name) = name_of_path(path.as_bytes()) else {
            return Ok(false);
        };
        if self.setting.place == Place::Folder {
            self.folder.remove(name)?;
        } else {
            self.disk.remove(name)?;
        }
        Ok(true)
    }

    fn sync(&mut self) -> Result<bool, Trouble> {
        if self.setting.place == Place::Folder {
            self.folder.sync()?;
        } else {
            self.disk.sync_names()?;
        }
        Ok(true)
    }

    /// Tells what a file holds.
    fn show(&mut self, path: &str) -> Result<bool, Trouble> {
        let Some(name) = name_of_path(path.as_bytes()) else {
            return Ok(false);
        };
        match self.octets(name)? {
            Some(octets) => self.tell(Stream::Output, octets.as_slice())?,
            None => self.page.report.found().push_str(". absent\n")?,
        }
        Ok(true)
    }

    /// Tells octets in the form in which lines want them.
    fn tell(&mut self, stream: Stream, octets: &[u8]) -> Result<(), NoMemory> {
        push_shown(self.page.report.found(), &self.page.texts, stream, octets)
    }

    /// Tells the paths of all files.
    fn files(&mut self) -> Result<bool, Trouble> {
        match self.setting.place {
            Place::Disk => push_paths(self.alloc, &mut self.disk, self.page.report.found())?,
            Place::Folder => self.folder.push_paths(self.page.report.found())?,
            Place::System => push_paths(
                self.alloc,
                &mut system_disk(self.rt),
                self.page.report.found(),
            )?,
        }
        Ok(true)
    }

    fn tell_calls(&mut self) -> Result<bool, Trouble> {
        let calls = self.calls;
        let text = format!(in self.alloc; ". {calls}\n")?;
        self.page.report.found().push_str(text.as_str())?;
        Ok(true)
    }

    fn watch(&mut self, line: &str) -> Result<bool, Trouble> {
        let words = self.page.texts.words(line)?;
        self.setting.watches.push(words)?;
        Ok(true)
    }

    fn set_between(&mut self, line: &str) -> Result<bool, Trouble> {
        let Some(octets) = self.page.texts.octets(line)? else {
            return Ok(false);
        };
        self.setting.between = octets;
        Ok(true)
    }

    fn set_before(&mut self, line: &str) -> Result<bool, Trouble> {
        let Some(octets) = self.page.texts.octets(line)? else {
            return Ok(false);
        };
        self.setting.before = octets;
        Ok(true)
    }

    fn set_after(&mut self, line: &str) -> Result<bool, Trouble> {
        let Some(octets) = self.page.texts.octets(line)? else {
            return Ok(false);
        };
        self.setting.after = octets;
        Ok(true)
    }

    /// Does a script of two lanes in every order of their events, each on a copy of the disk.
    fn orders(&mut self, line: &str) -> Result<bool, Trouble> {
        let Some(script) = self.page.texts.octets(line)? else {
            return Ok(false);
        };
        let orders = Orders {
            alloc: self.alloc,
            disk: &self.disk,
            before: self.setting.before.as_slice(),
            script: script.as_slice(),
            after: self.setting.after.as_slice(),
        };
        let done = orders.explore(&mut self.page.report)?;
        Ok(done)
    }

    /// Does a script of two lanes in turns of these on the disk of the case, and tells what `batch` prints.
    fn turns(&mut self, command: Command<'_>) -> Result<bool, Trouble> {
        let (lanes, line) = command.named();
        let Some(script) = self.page.texts.octets(line)? else {
            return Ok(false);
        };
        let empty = MemDisk::fresh(self.alloc)?;
        let disk = mem::replace(&mut self.disk, empty);
        match take_turns(self.alloc, disk, lanes, script.as_slice()) {
            Ok((disk, printed)) => {
                self.disk = disk;
                self.page.report.count_run();
                self.tell(Stream::Output, printed.as_slice())?;
                Ok(true)
            }
            Err(Wrong::Differs(why)) => {
                let text = format!(in self.alloc; ". {why}\n")?;
                self.page.report.found().push_str(text.as_str())?;
                Ok(true)
            }
            Err(Wrong::NoScript) => Ok(false),
            Err(Wrong::NoMemory) => Err(Trouble::from(NoMemory)),
        }
    }

    /// A run as a line has it. None if it isn't written so.
    fn asked(&mut self, command: Command<'_>) -> Result<Option<Asked>, NoMemory> {
        let (line, name) = command.rest.split_once(" < ").unwrap_or((command.rest, ""));
        let (status, starred) = match command.word.strip_prefix("*") {
            Some(status) => (status, true),
            None => (command.word, false),
        };
        let Ok(status) = status.parse::<u8>() else {
            return Ok(None);
        };
        let Some(input) = self.input_of(name)? else {
            return Ok(None);
        };
        Ok(Some(Asked {
            words: self.page.texts.words(line)?,
            input,
            status,
            starred,
        }))
    }

    /// The octets with this name, and none for no name. None if nothing has the name.
    fn input_of(&self, name: &str) -> Result<Option<Vec<u8>>, NoMemory> {
        match self.page.texts.find(name) {
            Some(octets) => Ok(Some(Vec::from_slice(self.alloc, octets)?)),
            None if name.is_empty() => Ok(Some(Vec::new(self.alloc))),
            None => Ok(None),
        }
    }

    /// Does a run; a starred one with each fault and crash before.
    fn run_line(&mut self, command: Command<'_>) -> Result<bool, Trouble> {
        let Some(asked) = self.asked(command)? else {
            return Ok(false);
        };
        let Asked {
            words,
            input,
            status,
            starred,
        } = asked;
        let run = Run {
            words: words.as_slice(),
            input: input.as_slice(),
        };
        if starred {
            self.explore(run)?;
        }
        self.run(run, status)?;
        Ok(true)
    }

    fn explore(&mut self, run: Run<'_>) -> Result<(), NoMemory> {
        let trial = Trial {
            alloc: self.alloc,
            run,
            watches: self.setting.watches.as_slice(),
            between: self.setting.between.as_slice(),
        };
        match self.setting.place {
            Place::Folder => self.folder.explore(trial, &mut self.page.report),
            Place::Disk | Place::System => trial.explore(&self.disk, &mut self.page.report),
        }
    }

    /// Does a run on the disk of the case, and tells its status, if it isn't the one that is wanted, and what it printed and said.
    fn run(&mut self, run: Run<'_>, wanted: u8) -> Result<(), NoMemory> {
        let (fails, narrow) = (self.setting.fails, self.setting.narrow);
        let mut streams = Streams::of(self.alloc, run.input, fails, narrow)?;
        let status = match self.setting.place {
            Place::Disk => self.perform(run, &mut streams)?,
            Place::Folder => self.perform_in_folder(run, &mut streams)?,
            Place::System => {
                let disk = system_disk(self.rt);
                let (_, status) = perform(self.alloc, disk, run.words, &mut streams);
                status
            }
        };
        self.setting.end_run();
        self.page.report.count_run();
        if status != wanted {
            let text = format!(in self.alloc; "status {status}\n")?;
            self.page.report.found().push_str(text.as_str())?;
        }
        self.tell(Stream::Output, streams.printed())?;
        self.tell(Stream::Errors, streams.said())
    }

    /// Does a run over the folder in memory.
    fn perform_in_folder(&mut self, run: Run<'_>, streams: &mut Streams) -> Result<u8, NoMemory> {
        let (calls, status) = self.folder.perform(run, streams)?;
        self.calls = calls;
        Ok(status)
    }

    /// Does a run on the disk in memory.
    fn perform(&mut self, run: Run<'_>, streams: &mut Streams) -> Result<u8, NoMemory> {
        let fails = Seq::of(vec![in self.alloc; self.setting.disk_fails]?);
        let empty = MemDisk::fresh(self.alloc)?;
        let disk = mem::replace(&mut self.disk, empty).failing(fails);
        let before = disk.calls();
        let (disk, status) = perform_altered(self.alloc, disk, self.setting.altered, run, streams);
        self.calls = disk.calls().saturating_sub(before);
        self.disk = disk;
        Ok(status)
    }

    /// Tells what a run answers where octets of a file or of the input are changed, or cut.
    fn damage(&mut self, command: Command<'_>, flips: bool) -> Result<bool, Trouble> {
        let (path, line) = command.named();
        let (line, name) = line.split_once(" < ").unwrap_or((line, ""));
        let words = self.page.texts.words(line)?;
        let Some(input) = self.input_of(name)? else {
            return Ok(false);
        };
        let run = Run {
            words: words.as_slice(),
            input: input.as_slice(),
        };
        if path == "input" {
            self.damage_of(Damaged::Input, input.as_slice(), run, flips)?;
            return Ok(true);
        }
        let Some(file) = name_of_path(path.as_bytes()) else {
            return Ok(false);
        };
        let Some(octets) = self.octets(file)? else {
            return Ok(false);
        };
        self.damage_of(Damaged::File(file), octets.as_slice(), run, flips)?;
        Ok(true)
    }

    fn damage_of(
        &mut self,
        damaged: Damaged,
        octets: &[u8],
        run: Run<'_>,
        flips: bool,
    ) -> Result<(), Trouble> {
        let damage = Damage {
            alloc: self.alloc,
            damaged,
            octets,
            run,
        };
        if flips {
            damage.flips(&self.disk, &mut self.page.report)?;
        }
        damage.cuts(&self.disk, &mut self.page.report)
    }
}
