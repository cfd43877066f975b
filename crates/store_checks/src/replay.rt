// Values to which the entries of a log are applied, one after another.
ghost use Rattle.std.specs.Prelude.{◌≡◌, ◌<◌, ◌++◌, ◌∷◌, [], ℕ, List, IfOk, MatchOption, MatchBool};
ghost use Rattle.gate_log.specs.Text.{IsLogText};
ghost use Rattle.store_checks.specs.Logs.{IsFirstRefused};
ghost use Rattle.store_checks.specs.Replays.{IsRootReplay, IsBoxReplay, IsMapReplay, RefusesRoot, RefusesBox, RefusesMap, generation_of};

use box_index::BoxIndex;
use gate_log::LogText;
use log_records::{read_box_entry, read_map_entry, read_root_entry};
use map_index::MapIndex;
use mdbox_base::{NoMemory, RootEntry};
use std::alloc::Global;

/// The version of mailbox logs.
pub(crate) const BOX_VERSION: u8 = 2;

/// What the entries of a log mean so far.
pub trait Replay {
    /// The value is what entries with these texts mean, each of which is good behind those before it.
    ghost is_replay: { Self → List (List ℕ) → Type 0 };

    /// No entry with this text is good behind those so far.
    ghost refuses: { Self → List ℕ → Type 0 };

    /// The store's id, where the meaning depends on it.
    ghost store: { Self → List ℕ };

    /// Takes in the entry with this text. False if and only if there is none that is good behind those so far.
    fn replay_entry(&mut self, alloc: Global, text: &[u8]) -> Result<bool, NoMemory>
        ensures taken { IfOk result (λ taken. MatchBool taken
            ((texts : List (List ℕ)) → is_replay self.old texts → is_replay self.new (texts ++ text.now ∷ []))
            ((self.new ≡ self.old) × refuses self.old text.now)) }
        ensures store { store self.new ≡ store self.old };
}

/// The generation that the last entry of a root log names.
#[derive(Drop)]
pub struct RootReplay {
    pub last: Option<u32>,
}

fn generation_of(entry: RootEntry) -> u32
    ensures { result ≡ generation_of entry }
{
    match entry {
        RootEntry::M { generation } => generation,
    }
}

impl Replay for RootReplay {
    ghost is_replay = { λ root. IsRootReplay root.last };

    ghost refuses = { λ _. RefusesRoot };

    ghost store = { λ _. [] };

    fn replay_entry(&mut self, _alloc: Global, text: &[u8]) -> Result<bool, NoMemory> {
        let Some(entry) = read_root_entry(text)? else {
            return Ok(false);
        };
        self.last = Some(generation_of(entry));
        Ok(true)
    }
}

impl Replay for BoxIndex {
    ghost is_replay = { λ index. IsBoxReplay index.meaning };

    ghost refuses = { λ index. RefusesBox index.meaning };

    ghost store = { λ _. [] };

    fn replay_entry(&mut self, alloc: Global, text: &[u8]) -> Result<bool, NoMemory> {
        let Some(entry) = read_box_entry(alloc, text, BOX_VERSION)? else {
            return Ok(false);
        };
        if !self.fits(&entry) {
            return Ok(false);
        }
        self.apply(entry)?;
        Ok(true)
    }
}

impl Replay for MapIndex {
    ghost is_replay = { λ map. IsMapReplay map.meaning };

    ghost refuses = { λ map. RefusesMap map.meaning };

    ghost store = { λ map. map.meaning.store };

    fn replay_entry(&mut self, alloc: Global, text: &[u8]) -> Result<bool, NoMemory> {
        let Some(entry) = read_map_entry(alloc, text)? else {
            return Ok(false);
        };
        if !self.fits(&entry) {
            return Ok(false);
        }
        self.reserve_for(&entry)?;
        self.take_in(entry);
        Ok(true)
    }
}

/// Takes in the entries of a log, up to the first that isn't good behind those before it, and answers where the record of
/// that one begins. None where all are.
pub fn replay_entries<F: Replay>(
    alloc: Global,
    replay: &mut F,
    text: &LogText,
) -> Result<Option<u64>, NoMemory>
    requires { F.is_replay replay.old [] }
    ensures replayed { (texts : List (List ℕ)) → IsLogText text.now texts → IfOk result (λ bad. MatchOption bad
        (F.is_replay replay.new texts)
        (IsFirstRefused F.is_replay F.refuses replay.new texts)) }
    ensures store { F.store replay.new ≡ F.store replay.old }
{
    let mut entries = text.entries();
    while let Some((place, entry)) = entries.next_entry() {
        if !replay.replay_entry(alloc, entry)? {
            return Ok(Some(place));
        }
    }
    Ok(None)
}
