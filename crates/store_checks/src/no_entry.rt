// A root log without an entry.
ghost use Rattle.std.specs.Prelude.{◌↔◌, Some, IsTrue, IfOk};
ghost use Rattle.model_store.specs.Opening.{HasNoEntry};

use gate_log::{FRONT_SIZE, LogError, read_log};
use mdbox_base::NoMemory;
use std::alloc::Global;

/// Whether a root log with these octets, or with these first 27, has no entry: it is too short for one, or has a whole
/// head and a first gate that isn't open.
pub fn has_no_entry(alloc: Global, octets: &[u8]) -> Result<bool, NoMemory>
    ensures { IfOk result (λ none. IsTrue none ↔ HasNoEntry (Some octets.now)) }
{
    if octets.len() < FRONT_SIZE {
        return Ok(true);
    }
    match read_log(alloc, &octets[..FRONT_SIZE]) {
        Ok(_) => Ok(true),
        Err(LogError::LogDamaged(_)) => Ok(false),
        Err(_) => Err(NoMemory),
    }
}
