// Reading a log.
ghost use Rattle.std.specs.Prelude.{◌≡◌, ◌<◌, ℕ, List, Option, Some, None, length, take, IfOk, IfErr};
ghost use Rattle.model_logs.specs.declared.log_head.LogHead.{LogHead};
ghost use Rattle.model_logs.specs.LogFile.{IsVersionOf, HeadFits, head_octets, IsTaken};
ghost use Rattle.gate_log.specs.Reading.{IsReading, IsReadError};

use crate::error::LogError;
use crate::gate::OPEN;
use crate::head::{HEAD_SIZE, check_head, read_head};
use crate::record::first_entry;
use mdbox_base::{NoMemory, Octets, Seq};
use model_logs::LogHead;
use std::alloc::Global;

/// What a log has.
#[derive(Drop)]
pub struct LogRead {
    pub head: LogHead,
    /// The entries, in order.
    pub entries: Seq<Octets>,
    /// Where the record of each entry begins, in octets from the file's beginning.
    pub places: Seq<u64>,
    /// Where the last gate stands.
    pub end: u64,
}

/// Reads a log of any store, kind, number and generation, in one pass.
pub fn read_log(alloc: Global, octets: &[u8]) -> Result<LogRead, LogError>
    ensures read { IfOk result (λ read. IsReading octets.now read) }
    ensures refused { IfErr result (IsReadError None octets.now) }
{
    match read_head(octets) {
        Ok(head) => read_entries(alloc, octets, head),
        Err(place) => Err(LogError::LogDamaged(place)),
    }
}

/// Reads the log that has this head.
pub fn read_log_of(alloc: Global, octets: &[u8], head: LogHead) -> Result<LogRead, LogError>
    requires version { IsVersionOf head.kind head.version }
    ensures read { IfOk result (λ read. IsReading octets.now read × (read.head ≡ head)) }
    ensures refused { IfErr result (IsReadError (Some head) octets.now) }
{
    match check_head(octets, head) {
        Ok(()) => read_entries(alloc, octets, head),
        Err(place) => Err(LogError::LogDamaged(place)),
    }
}

/// Reads what stands behind a head.
fn read_entries(alloc: Global, octets: &[u8], head: LogHead) -> Result<LogRead, LogError>
    requires fits { HeadFits head }
    requires gate { 25 < length octets.now }
    requires whole { take 25 octets.now ≡ head_octets head }
    ensures read { IfOk result (λ read. IsReading octets.now read × (read.head ≡ head)) }
    ensures refused { (asked : Option LogHead) → IsTaken asked head → IfErr result (IsReadError asked octets.now) }
{
    let mut entries = Seq::empty(alloc);
    let mut places = Seq::empty(alloc);
    let mut gate = HEAD_SIZE;
    while octets[gate] == OPEN && gate + 1 < octets.len() {
        let Some(entry) = first_entry(&octets[gate + 1..]) else {
            return Err(LogError::LogDamaged(gate as u64 + 1));
        };
        places.push(gate as u64 + 1)?;
        entries.push(copy_of(alloc, entry)?)?;
        gate += entry.len() + 5;
    }
    Ok(LogRead {
        head,
        entries,
        places,
        end: gate as u64,
    })
}

fn copy_of(alloc: Global, text: &[u8]) -> Result<Octets, NoMemory>
    ensures { IfOk result (λ copy. copy ≡ text.now) }
{
    let mut copy = Octets::empty(alloc);
    copy.push_all(text)?;
    Ok(copy)
}
