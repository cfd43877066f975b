// How much an index can take in without memory.
ghost use Rattle.std.specs.Prelude.{◌≡◌};
ghost use Rattle.map_index.specs.Value.{larger_room, room_for, room_left, no_room};

use mdbox_base::MapEntry;

/// How much of each an index can take in without memory: records, instances that no record names yet, mailboxes and
/// sealed files.
#[derive(Clone, Copy, Debug, PartialEq, Eq)]
pub struct MapRoom {
    pub records: usize,
    pub instances: usize,
    pub boxes: usize,
    pub files: usize,
}

pub const NO_ROOM: MapRoom = MapRoom {
    records: 0,
    instances: 0,
    boxes: 0,
    files: 0,
};

/// The greater of each two.
pub fn larger_room(a: MapRoom, b: MapRoom) -> MapRoom
    ensures { result ≡ larger_room a b }
{
    MapRoom {
        records: a.records.max(b.records),
        instances: a.instances.max(b.instances),
        boxes: a.boxes.max(b.boxes),
        files: a.files.max(b.files),
    }
}

/// What an entry needs.
pub fn room_for(entry: &MapEntry) -> MapRoom
    ensures { result ≡ room_for entry.now }
{
    match entry {
        MapEntry::S { instances, .. } => MapRoom {
            records: 1,
            instances: instances.length(),
            ..NO_ROOM
        },
        MapEntry::B { .. } => MapRoom {
            boxes: 1,
            ..NO_ROOM
        },
        MapEntry::E { .. } => MapRoom {
            files: 1,
            ..NO_ROOM
        },
        _ => NO_ROOM,
    }
}

/// What an entry leaves.
pub fn room_left(entry: &MapEntry, room: MapRoom) -> MapRoom
    ensures { result ≡ room_left entry.now room }
{
    let used = room_for(entry);
    MapRoom {
        records: room.records.saturating_sub(used.records),
        instances: room.instances.saturating_sub(used.instances),
        boxes: room.boxes.saturating_sub(used.boxes),
        files: room.files.saturating_sub(used.files),
    }
}
