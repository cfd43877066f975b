// What the lines of cases want, what was found, and how they differ.
use mdbox_base::NoMemory;
use std::alloc::Global;

/// How many cases there were, how many runs in them, how many images of a crash were looked at, and how many lines differ.
#[derive(Clone, Copy, Debug, PartialEq, Eq)]
pub struct Counts {
    pub cases: u64,
    pub runs: u64,
    pub images: u64,
    pub differences: u64,
}

impl Counts {
    pub const NONE: Counts = Counts {
        cases: 0,
        runs: 0,
        images: 0,
        differences: 0,
    };

    /// Both together.
    pub fn and(self, other: Counts) -> Counts {
        Counts {
            cases: self.cases.saturating_add(other.cases),
            runs: self.runs.saturating_add(other.runs),
            images: self.images.saturating_add(other.images),
            differences: self.differences.saturating_add(other.differences),
        }
    }
}

/// What the lines after a command want, and what was found for it.
#[derive(Drop)]
pub struct Report {
    alloc: Global,
    /// The title of the case.
    title: String,
    /// The number of the command's line.
    at: u64,
    wanted: String,
    found: String,
    /// Whether something was found that no line can want.
    never: bool,
    counts: Counts,
    differences: String,
}

impl Report {
    pub fn empty(alloc: Global) -> Report {
        Report {
            alloc,
            title: String::new(alloc),
            at: 0,
            wanted: String::new(alloc),
            found: String::new(alloc),
            never: false,
            counts: Counts::NONE,
            differences: String::new(alloc),
        }
    }

    /// Begins a case.
    pub fn begin(&mut self, title: &str) -> Result<(), NoMemory> {
        self.counts.cases = self.counts.cases.saturating_add(1);
        self.title = String::from_str(self.alloc, title)?;
        Ok(())
    }

    /// Counts a run.
    pub fn count_run(&mut self) {
        self.counts.runs = self.counts.runs.saturating_add(1);
    }

    /// Counts an image that was looked at.
    pub fn count_image(&mut self) {
        self.counts.images = self.counts.images.saturating_add(1);
    }

    /// Adds a line that is wanted.
    pub fn want(&mut self, line: &str) -> Result<(), NoMemory> {
        self.wanted.push_str(line)?;
        self.wanted.push_str("\n")?;
        Ok(())
    }

    /// Where what is found is added, in the form in which it is wanted.
    pub fn found(&mut self) -> &mut String {
        &mut self.found
    }

    /// Says that what was found is wrong, whatever is wanted.
    pub fn never(&mut self) {
        self.never = true;
    }

    /// Compares what was wanted with what was found, notes where they differ, and goes on with the command of this line.
    pub fn settle(&mut self, next: u64) -> Result<(), NoMemory> {
        if self.never || self.wanted.as_str() != self.found.as_str() {
            self.differ()?;
        }
        self.at = next;
        self.wanted.clear();
        self.found.clear();
        self.never = false;
        Ok(())
    }

    /// Notes what was found, below the number of the line and the title of the case.
    fn differ(&mut self) -> Result<(), NoMemory> {
        self.counts.differences = self.counts.differences.saturating_add(1);
        let (at, title, found) = (self.at, self.title.as_str(), self.found.as_str());
        let text = format!(in self.alloc; "line {at}, {title}:\n{found}")?;
        self.differences.push_str(text.as_str())?;
        Ok(())
    }

    pub fn counts(&self) -> Counts {
        self.counts
    }

    /// What differs, in the form in which it is wanted.
    pub fn differences(&self) -> &str {
        self.differences.as_str()
    }
}
