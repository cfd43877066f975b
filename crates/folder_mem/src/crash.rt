// What a crash leaves.
ghost use Rattle.std.specs.Prelude.{◌≤◌};

use crate::bare::BareFolder;
use crate::folder::MemFolder;
use crate::note::Change;
use crate::path::{is_in, same_path};
use crate::seen::Thing;
use crate::text::Text;
use mdbox_base::NoMemory;
use std::alloc::Global;

/// What becomes of the octets that were written to a file since its last sync.
#[derive(Clone, Copy)]
enum Fate {
    /// They are there.
    New,
    /// The file is as its last sync left it.
    Old,
    /// Each of them holds this value.
    Torn(u8),
}

/// A path at which something was made.
#[derive(Drop)]
struct Place {
    path: String,
    now: Thing,
    /// What else a crash may leave there: what stood there since the names of its folder were last synced.
    earlier: Vec<Thing>,
}

/// A file that was made.
#[derive(Drop)]
struct Held {
    alloc: Global,
    octets: Vec<u8>,
    /// Which of them were written since the last sync.
    written: Vec<bool>,
    /// The octets as the last sync left them.
    synced: Vec<u8>,
    /// Whether the file was changed since.
    is_loose: bool,
}

/// A folder in memory as a crash finds it.
#[derive(Drop)]
pub struct Crash {
    alloc: Global,
    places: Vec<Place>,
    /// The files by their numbers.
    files: Vec<Held>,
    is_sound: bool,
}

impl Fate {
    const ALL: [Fate; 4] = [Fate::New, Fate::Old, Fate::Torn(1), Fate::Torn(255)];

    /// The fate with this number, and what is left of the number.
    fn of(mix: u64) -> (Fate, u64) {
        let fate = match mix % 4 {
            0 => Fate::New,
            1 => Fate::Old,
            2 => Fate::Torn(1),
            _ => Fate::Torn(255),
        };
        (fate, mix / 4)
    }
}

impl Place {
    /// How many things a crash may leave here.
    fn choices(&self) -> u64
        ensures { 1 ≤ result }
    {
        (self.earlier.len() as u64).saturating_add(1)
    }

    /// The thing with this number, of which 0 is the present one, and what is left of the number.
    fn left(&self, mix: u64) -> (Thing, u64) {
        let choices = self.choices();
        let pick = match mix % choices {
            0 => self.now,
            number => match self.earlier.get((number - 1) as usize) {
                Some(thing) => *thing,
                None => self.now,
            },
        };
        (pick, mix / choices)
    }
}

impl Held {
    fn empty(alloc: Global) -> Held {
        Held {
            alloc,
            octets: Vec::new(alloc),
            written: Vec::new(alloc),
            synced: Vec::new(alloc),
            is_loose: false,
        }
    }

    fn write(&mut self, at: u64, from: &[u8]) -> Result<(), NoMemory> {
        let at = (at as usize).min(self.octets.len());
        for (k, octet) in from.iter().enumerate() {
            self.put(at.saturating_add(k), *octet)?;
        }
        self.is_loose = true;
        Ok(())
    }

    fn put(&mut self, place: usize, octet: u8) -> Result<(), NoMemory> {
        match (self.octets.get_mut(place), self.written.get_mut(place)) {
            (Some(own), Some(written)) => {
                *own = octet;
                *written = true;
            }
            _ => {
                self.octets.push(octet)?;
                self.written.push(true)?;
            }
        }
        Ok(())
    }

    fn cut(&mut self, end: u64) {
        self.octets.truncate(end as usize);
        self.written.truncate(end as usize);
        self.is_loose = true;
    }

    fn sync(&mut self) -> Result<(), NoMemory> {
        self.synced = self.octets.to_vec(self.alloc)?;
        self.written.clear();
        self.written.resize(self.octets.len(), false)?;
        self.is_loose = false;
        Ok(())
    }

    /// The octets after a crash.
    fn left(&self, fate: Fate) -> Result<Vec<u8>, NoMemory> {
        match fate {
            Fate::New => Ok(self.octets.to_vec(self.alloc)?),
            Fate::Old => Ok(self.synced.to_vec(self.alloc)?),
            Fate::Torn(value) => self.torn(value),
        }
    }

    fn torn(&self, value: u8) -> Result<Vec<u8>, NoMemory> {
        let mut octets = self.octets.to_vec(self.alloc)?;
        for (octet, written) in octets.iter_mut().zip(self.written.iter()) {
            if *written {
                *octet = value;
            }
        }
        Ok(octets)
    }
}

impl Crash {
    /// The folder after these changes.
    pub(crate) fn of(alloc: Global, changes: &[Change]) -> Result<Crash, NoMemory> {
        let mut crash = Crash {
            alloc,
            places: Vec::new(alloc),
            files: Vec::new(alloc),
            is_sound: true,
        };
        for change in changes {
            crash.follow(change)?;
        }
        Ok(crash)
    }

    /// In how many ways names and octets that aren't durable may be left: each of several things at a path, and of a file's octets
    /// all, none, or two that are torn.
    pub fn mixes(&self) -> u64 {
        let mut count = 1u64;
        for place in &self.places {
            count = count.saturating_mul(place.choices());
        }
        let loose = self.files.iter().filter(|file| file.is_loose).count();
        for _ in 0..loose {
            count = count.saturating_mul(Fate::ALL.len() as u64);
        }
        count
    }

    /// What a new process finds after a crash that left this mix of names and octets. 0 is all that was done.
    pub fn image(&self, mix: u64) -> Result<BareFolder, NoMemory> {
        let (fates, mut mix) = self.fates(mix)?;
        let mut image = Image {
            alloc: self.alloc,
            changes: Vec::new(self.alloc),
            count: 0,
        };
        for place in &self.places {
            let (thing, rest) = place.left(mix);
            mix = rest;
            let path = place.path.as_str();
            match thing {
                Thing::Nothing => {}
                Thing::Folder => image.add_folder(path)?,
                Thing::File(number) => {
                    image.add_file(path, self.octets_left(number, fates.as_slice())?)?
                }
            }
        }
        image.close()
    }

    /// What becomes of each file's octets, and what is left of the mix's number.
    fn fates(&self, mix: u64) -> Result<(Vec<Fate>, u64), NoMemory> {
        let mut fates = Vec::new(self.alloc);
        let mut rest = mix;
        for file in &self.files {
            if file.is_loose {
                let (fate, left) = Fate::of(rest);
                rest = left;
                fates.push(fate)?;
            } else {
                fates.push(Fate::New)?;
            }
        }
        Ok((fates, rest))
    }

    fn octets_left(&self, number: u64, fates: &[Fate]) -> Result<Vec<u8>, NoMemory> {
        let number = number as usize;
        match (self.files.get(number), fates.get(number)) {
            (Some(file), Some(fate)) => file.left(*fate),
            _ => Ok(Vec::new(self.alloc)),
        }
    }

    fn follow(&mut self, change: &Change) -> Result<(), NoMemory> {
        match change {
            Change::Locked | Change::Ended => Ok(()),
            Change::MadeFile(path) => {
                let number = self.files.len() as u64;
                self.files.push(Held::empty(self.alloc))?;
                self.stand(path.as_str(), Thing::File(number))
            }
            Change::MadeFolder(path) => self.stand(path.as_str(), Thing::Folder),
            Change::Removed(path) => self.stand(path.as_str(), Thing::Nothing),
            Change::Written(number, at, text) => match self.files.get_mut(*number as usize) {
                Some(file) => file.write(*at, &text.octets),
                None => Ok(()),
            },
            Change::Cut(number, end) => {
                if let Some(file) = self.files.get_mut(*number as usize) {
                    file.cut(*end);
                }
                Ok(())
            }
            Change::Synced(number) => self.sync(*number),
            Change::NamesSynced(folder) => {
                self.sync_names(folder.as_str());
                Ok(())
            }
            Change::SyncFailed => {
                self.is_sound = false;
                Ok(())
            }
        }
    }

    /// Another thing stands at a path.
    fn stand(&mut self, path: &str, thing: Thing) -> Result<(), NoMemory> {
        for place in &mut self.places {
            if same_path(place.path.as_str(), path) {
                place.earlier.push(place.now)?;
                place.now = thing;
                return Ok(());
            }
        }
        let mut earlier = Vec::new(self.alloc);
        earlier.push(Thing::Nothing)?;
        self.places.push(Place {
            path: String::from_str(self.alloc, path)?,
            now: thing,
            earlier,
        })?;
        Ok(())
    }

    fn sync(&mut self, number: u64) -> Result<(), NoMemory> {
        if !self.is_sound {
            return Ok(());
        }
        match self.files.get_mut(number as usize) {
            Some(file) => file.sync(),
            None => Ok(()),
        }
    }

    fn sync_names(&mut self, folder: &str) {
        if !self.is_sound {
            return;
        }
        for place in &mut self.places {
            if is_in(place.path.as_str(), folder) {
                place.earlier.clear();
            }
        }
    }
}

/// A folder after a crash, as it is put together. What stands in a folder that is gone is gone too.
#[derive(Drop)]
struct Image {
    alloc: Global,
    changes: Vec<Change>,
    /// How many files it has.
    count: u64,
}

impl Image {
    fn add_folder(&mut self, path: &str) -> Result<(), NoMemory> {
        if self.has_folder_of(path) {
            self.changes
                .push(Change::MadeFolder(String::from_str(self.alloc, path)?))?;
        }
        Ok(())
    }

    fn add_file(&mut self, path: &str, octets: Vec<u8>) -> Result<(), NoMemory> {
        if !self.has_folder_of(path) {
            return Ok(());
        }
        let path = String::from_str(self.alloc, path)?;
        let text = Text { octets };
        self.changes.push(Change::MadeFile(path))?;
        self.changes.push(Change::Written(self.count, 0, text))?;
        self.changes.push(Change::Synced(self.count))?;
        self.count = self.count.saturating_add(1);
        Ok(())
    }

    /// Whether the folder is there that a path stands in.
    fn has_folder_of(&self, path: &str) -> bool {
        is_in(path, ".")
            || self
                .changes
                .iter()
                .any(|change| makes_folder_of(change, path))
    }

    /// The folder, all of which is durable.
    fn close(self) -> Result<BareFolder, NoMemory> {
        let mut changes = self.changes;
        let mut synced = Vec::new(self.alloc);
        synced.push(Change::NamesSynced(String::from_str(self.alloc, ".")?))?;
        for change in &changes {
            if let Change::MadeFolder(path) = change {
                let path = String::from_str(self.alloc, path.as_str())?;
                synced.push(Change::NamesSynced(path))?;
            }
        }
        synced.push(Change::Ended)?;
        changes.append(&mut synced)?;
        Ok(BareFolder::of(MemFolder::begun(self.alloc, changes)))
    }
}

/// Whether a change makes the folder that a path stands in.
fn makes_folder_of(change: &Change, path: &str) -> bool {
    match change {
        Change::MadeFolder(folder) => is_in(path, folder.as_str()),
        _ => false,
    }
}
