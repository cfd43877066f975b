// What lines have said for the runs to come.
use crate::streams::Fails;
use disk_model::FileName;
use file_paths::name_of_path;
use std::alloc::Global;

/// Where the files of a case are.
#[derive(Clone, Copy, PartialEq, Eq)]
pub enum Place {
    /// On a disk in memory.
    Disk,
    /// In a folder in memory, as the system has them.
    Folder,
    /// In the folder of the system that the program runs in.
    System,
}

/// The octet that the disk in memory gives wrong.
#[derive(Clone, Copy)]
pub struct Altered {
    pub name: FileName,
    pub offset: u64,
    pub octet: u8,
}

impl Altered {
    /// As a line has it: the file's path, the place in it, and what is read there. None if it isn't written so.
    fn of(line: &str) -> Option<Altered> {
        let (path, rest) = line.split_once(' ')?;
        let (offset, octet) = rest.split_once(' ')?;
        Some(Altered {
            name: name_of_path(path.as_bytes())?,
            offset: offset.parse::<u64>().ok()?,
            octet: octet.parse::<u8>().ok()?,
        })
    }
}

/// What lines have said for the runs of a case.
#[derive(Drop)]
pub struct Setting {
    /// The words of the runs that are looked at after a crash.
    pub watches: Vec<Vec<String>>,
    /// What these may print beside what they print before the run and after it.
    pub between: Vec<u8>,
    /// The script that is done before each order of another's events, and the one that looks at the store afterwards.
    pub before: Vec<u8>,
    pub after: Vec<u8>,
    /// The calls that fail in the next run.
    pub fails: Fails,
    /// The call of the disk that fails in the next run, 0 for none.
    pub disk_fails: u64,
    /// The octet that the disk gives wrong in the next run.
    pub altered: Option<Altered>,
    /// Whether the output takes one octet a call in the next run.
    pub narrow: bool,
    pub place: Place,
}

impl Setting {
    /// Nothing is said.
    pub fn none(alloc: Global) -> Setting {
        Setting {
            watches: Vec::new(alloc),
            between: Vec::new(alloc),
            before: Vec::new(alloc),
            after: Vec::new(alloc),
            fails: Fails::NONE,
            disk_fails: 0,
            altered: None,
            narrow: false,
            place: Place::Disk,
        }
    }

    /// Says which call of the next run fails. False if it isn't written so.
    pub fn fail(&mut self, text: &str) -> bool {
        let (word, number) = text.split_once(' ').unwrap_or((text, ""));
        let Ok(number) = number.parse::<u64>() else {
            return false;
        };
        match word {
            "disk" => self.disk_fails = number,
            "input" => self.fails.input = number,
            "output" => self.fails.output = number,
            "errors" => self.fails.errors = number,
            "clock" => self.fails.clock = number,
            _ => return false,
        }
        true
    }

    /// Says which octet the disk gives wrong in the next run. False if it isn't written so.
    pub fn alter(&mut self, line: &str) -> bool {
        self.altered = Altered::of(line);
        self.altered.is_some()
    }

    /// Forgets what was said for one run.
    pub fn end_run(&mut self) {
        self.fails = Fails::NONE;
        self.disk_fails = 0;
        self.altered = None;
        self.narrow = false;
    }
}
