// A world of two lanes.
ghost use Rattle.std.specs.Prelude.{◌≡◌, ◌≤◌, length, IfOk};
ghost use Rattle.lanes.specs.Worlds.{AreGiven, AreOfLanes};
ghost use Rattle.script_text.specs.Script.{IsForLanes};

use attach_detach::Prepared;
use disk_mem::MemDisk;
use disk_model::Disk;
use lanes::{Turn, Turned, World, worlds_go_on};
use mdbox_base::{JournalEntry, MemSink, NoMemory, Octets, Reply, Script, Seq};
use mdbox_threads::prepare_in_turn;
use request_text::print_batch;
use script_run::open_script;
use script_text::{ScriptError, read_script};
use std::alloc::{AllocFailed, Global};
use std::marker::Model;
use store_open::{OpenError, OpenRefused};

/// How many lanes a script has.
pub const LANES: u32 = 2;

/// Why an order went otherwise than lists do.
#[derive(Clone, Copy, Debug, PartialEq, Eq)]
pub enum Wrong {
    NoMemory,
    /// The scripts aren't written as scripts are.
    NoScript,
    /// In words.
    Differs(&'static str),
}

impl From<NoMemory> for Wrong {
    fn from(_error: NoMemory) -> Wrong {
        Wrong::NoMemory
    }
}

impl<T: Drop> From<AllocFailed<T>> for Wrong {
    fn from(_error: AllocFailed<T>) -> Wrong {
        Wrong::NoMemory
    }
}

/// A lane of two.
#[derive(Clone, Copy, Debug, PartialEq, Eq)]
pub enum Lane {
    First,
    Second,
}

impl Lane {
    pub fn number(self) -> u32
        ensures { (1 ≤ result) × (result ≤ 2) }
    {
        match self {
            Lane::First => 1,
            Lane::Second => LANES,
        }
    }
}

/// A world of a script, over the store that is opened from a disk.
pub fn begin(alloc: Global, disk: MemDisk, script: Script) -> Result<TwoLanes<MemDisk>, Wrong>
    requires { (script.lanes ≡ 2) × IsForLanes script }
{
    let prepared = prepare_in_turn(alloc, script.requests.as_slice())?;
    match open(alloc, disk, script, prepared) {
        Ok(world) => Ok(world),
        Err(
            OpenRefused {
                error: OpenError::NoMemory,
                disk: _disk,
            },
        ) => Err(Wrong::NoMemory),
        Err(
            OpenRefused {
                error: _,
                disk: _disk,
            },
        ) => Err(Wrong::Differs("it isn't opened")),
    }
}

/// A script of two lanes.
pub fn script_of(alloc: Global, text: &[u8]) -> Result<Script, Wrong>
    ensures { IfOk result (λ script. (script.lanes ≡ 2) × IsForLanes script) }
{
    match read_script(alloc, text, LANES) {
        Ok(script) => Ok(script),
        Err(ScriptError::Bad(_)) => Err(Wrong::NoScript),
        Err(ScriptError::NoMemory) => Err(Wrong::NoMemory),
    }
}

/// Opens the store, and begins a world of a script of two lanes over it.
fn open<D: Disk>(
    alloc: Global,
    disk: D,
    script: Script,
    prepared: Seq<Option<Prepared>>,
) -> Result<TwoLanes<D>, OpenRefused<D>>
    requires lanes { (script.lanes ≡ 2) × AreOfLanes 2 script.requests }
    requires few { length script.requests ≤ 100000 }
    requires given { AreGiven script.requests prepared }
{
    let world = open_script(alloc, disk, script, prepared)?;
    Ok(TwoLanes { world })
}

/// A world of two lanes.
pub struct TwoLanes<D: Disk> {
    world: World<D>,
}

impl<D: Disk> Model for TwoLanes<D> {
    ghost use Rattle.std.specs.Prelude.{◌≡◌, length};
    ghost use Rattle.lanes.specs.Worlds.{WorldValue};

    ghost Value = { WorldValue D };

    ghost view = { λ two. two.world };

    ghost invariant = { λ two. length two.world.rows ≡ 2 };
}

impl<D: Disk> TwoLanes<D> {
    pub fn advance(&mut self, lane: Lane) -> Turned {
        worlds_go_on::<D>();
        match self.world.advance(lane.number()) {
            Turned::Worked => Turned::Worked,
            Turned::Idle => Turned::Idle,
            Turned::NoMemory => Turned::NoMemory,
        }
    }

    /// Gives each lane a turn, and answers whether neither had a request left.
    pub fn is_idle(&mut self) -> bool {
        let first = self.advance(Lane::First);
        let second = self.advance(Lane::Second);
        first == Turned::Idle && second == Turned::Idle
    }

    pub fn replied(&self, lane: Lane) -> u64 {
        self.world.replied(lane.number())
    }

    /// The entries of the steps made.
    pub fn journal(&self) -> &[JournalEntry] {
        self.world.journal()
    }

    /// How many entries there are of steps that a failed append would have made.
    pub fn broken(&self) -> usize {
        self.world.broken().len()
    }

    pub fn replies(&self) -> &[Option<Reply>] {
        self.world.replies()
    }

    /// The reply of a request, if it has one.
    pub fn reply(&self, place: usize) -> Option<&Reply> {
        match self.world.replies().get(place) {
            Some(Some(reply)) => Some(reply),
            _ => None,
        }
    }

    /// What `batch` prints.
    pub fn printed(&self, alloc: Global) -> Result<Octets, NoMemory> {
        let mut text = MemSink::of(Octets::empty(alloc), Seq::empty(alloc));
        let mut printed = Octets::empty(alloc);
        match print_batch(alloc, &mut text, self.world.journal(), self.world.replies()) {
            Ok(()) => printed.push_all(text.held().as_slice())?,
            Err(_) => return Err(NoMemory),
        }
        Ok(printed)
    }

    pub fn turns(&self) -> &[Turn] {
        self.world.turns()
    }

    /// The disk as it is left.
    pub fn into_disk(self) -> D {
        let TwoLanes { world } = self;
        let (store, _replies, _journal, _broken) = world.into_parts();
        store.into_disk()
    }
}
