// What a store takes of memory before it opens.
ghost use Rattle.std.specs.Prelude.{◌≡◌, ◌+◌, ◌≤◌, length, map, All, IfOk, vec_len};
ghost use Rattle.store_core.specs.Value.{entry_room, roomy_box};

use crate::store::OpenBox;
use gate_log::LogRoom;
use mdbox_base::NoMemory;
use std::alloc::Global;
use std::marker::Model;

/// How many octets of a log's room an entry of 64 octets takes: its length and a gate have 5 more.
const ENTRY_ROOM: u32 = 69;

/// The memory that an open store has from the beginning: room for an entry in the map log and in the log of each mailbox, and
/// a number for each record.
///
/// Opening a store changes its disk, so this is taken before.
#[derive(Drop)]
pub struct StoreRoom {
    pub(crate) map_log: LogRoom,
    pub(crate) box_logs: Vec<LogRoom>,
    /// What is due of each record: nothing.
    pub(crate) dues: Vec<u32>,
}

impl Model for StoreRoom {
    ghost use Rattle.std.specs.Prelude.{◌≡◌, length, replicate, All};
    ghost use Rattle.store_core.specs.Value.{RoomValue, entry_room};

    ghost Value = { RoomValue };

    ghost view = { λ room. record { boxes = length room.box_logs.items; records = length room.dues.items } };

    ghost invariant = { λ room. (room.map_log ≡ entry_room) × All (λ log. log ≡ entry_room) room.box_logs.items × (room.dues.items ≡ replicate (length room.dues.items) 0) };
}

impl StoreRoom {
    /// Room for a store of so many mailboxes and records.
    pub fn of(alloc: Global, boxes: u32, records: u32) -> Result<StoreRoom, NoMemory>
        ensures { IfOk result (λ room. room ≡ record { boxes = boxes; records = records }) }
    {
        Ok(StoreRoom {
            map_log: LogRoom::of(alloc, ENTRY_ROOM)?,
            box_logs: rooms_for(alloc, boxes)?,
            dues: vec![in alloc; 0; records as usize]?,
        })
    }
}

/// Room for an entry in each of so many logs.
fn rooms_for(alloc: Global, logs: u32) -> Result<Vec<LogRoom>, NoMemory>
    ensures size { IfOk result (λ rooms. length rooms.items ≡ logs) }
    ensures rooms { IfOk result (λ rooms. All (λ room. room ≡ entry_room) rooms.items) }
{
    let mut rooms = Vec::with_capacity(alloc, logs as usize)?;
    for _ in 0..logs {
        rooms.push(LogRoom::of(alloc, ENTRY_ROOM)?)?;
    }
    Ok(rooms)
}

/// Gives each mailbox's log its room.
pub(crate) fn give_rooms(boxes: &mut Vec<OpenBox>, rooms: Vec<LogRoom>)
    requires size { length rooms.items ≡ length boxes.old.items }
    requires rooms { All (λ room. room ≡ entry_room) rooms.items }
    ensures { boxes.new.items ≡ map roomy_box boxes.old.items }
{
    let mut rooms = rooms;
    for place in 0..boxes.len() {
        let room = take_last(&mut rooms);
        boxes[place].log.take_room(room);
    }
}

/// The last of the rooms, which leaves them.
fn take_last(rooms: &mut Vec<LogRoom>) -> LogRoom
    requires some { 1 ≤ vec_len rooms.old }
    requires rooms { All (λ room. room ≡ entry_room) rooms.old.items }
    ensures room { result ≡ entry_room }
    ensures len { vec_len rooms.new + 1 ≡ vec_len rooms.old }
    ensures rooms { All (λ room. room ≡ entry_room) rooms.new.items }
{
    rooms.pop().unwrap()
}
