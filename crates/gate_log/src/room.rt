// Memory for a log's records.
ghost use Rattle.std.specs.Prelude.{◌≡◌, ◌<◌, ◌^◌, vec_len, IfOk};

use mdbox_base::NoMemory;
use std::alloc::Global;
use std::marker::Model;

/// Room for records that was made before there is a log to have it.
///
/// What opens a log writes, and must find no want of memory once it does: so the room is made first, and given to the log
/// afterwards.
#[derive(Drop)]
pub struct LogRoom {
    buffer: Vec<u8>,
}

impl Model for LogRoom {
    ghost use Rattle.std.specs.Prelude.{◌<◌, ◌^◌, ℕ, vec_len};

    ghost Value = { ℕ };

    ghost view = { λ room. vec_len room.buffer };

    ghost invariant = { λ room. vec_len room.buffer < 2 ^ 32 };
}

impl LogRoom {
    /// Room of so many octets: those of an entry, and 5 for each entry.
    pub fn of(alloc: Global, octets: u32) -> Result<LogRoom, NoMemory>
        ensures { IfOk result (λ room. room ≡ octets) }
    {
        let mut buffer = Vec::new(alloc);
        buffer.resize(octets as usize, 0)?;
        Ok(LogRoom { buffer })
    }

    /// The memory itself.
    pub(crate) fn into_buffer(self) -> Vec<u8>
        ensures { (vec_len result ≡ self) × (vec_len result < 2 ^ 32) }
    {
        self.buffer
    }
}
