// Logs whose octets are kept as they were read.
ghost use Rattle.std.specs.Prelude.{◌≡◌, ◌<◌, ◌+◌, ℕ, List, Option, length, take, IfOk, IfErr, IfSome, IsNone};
ghost use Rattle.model_logs.specs.declared.log_head.LogHead.{LogHead};
ghost use Rattle.model_logs.specs.LogFile.{IsVersionOf, HeadFits, head_octets, IsTaken, IsDamagedAt};
ghost use Rattle.gate_log.specs.Reading.{IsDamage};
ghost use Rattle.gate_log.specs.Text.{IsLogText, HasEntriesAt, IsNextEntry};

use crate::error::LogError;
use crate::gate::OPEN;
use crate::head::{HEAD_SIZE, check_head, read_head};
use crate::record::first_entry;
use mdbox_base::Octets;
use model_logs::LogHead;

/// A log whose head and gates were checked, with its entries where they stand in its octets.
#[derive(Drop)]
pub struct LogText {
    pub head: LogHead,
    /// All octets of the log, with what stands behind its last gate.
    pub octets: Octets,
    /// Where the last gate stands.
    pub end: u64,
    /// How many entries there are.
    pub count: u64,
}

impl LogText {
    /// Goes over the entries, in order.
    pub fn entries(&self) -> LogCursor<'_>
        ensures entries { (entries : List (List ℕ)) → IsLogText self.now entries → HasEntriesAt result.octets.now result.gate entries }
        ensures first { result.gate ≡ 25 }
    {
        LogCursor {
            octets: self.octets.as_slice(),
            gate: HEAD_SIZE,
        }
    }
}

/// Goes over the entries of a log, without a copy of any.
#[derive(Drop)]
pub struct LogCursor<'a> {
    octets: &'a [u8],
    /// Where the gate before the next entry stands.
    gate: usize,
}

impl<'a> LogCursor<'a> {
    /// The next entry, and where its record begins, in octets from the file's beginning. None after the last.
    pub fn next_entry(&mut self) -> Option<(u64, &'a [u8])>
        ensures next { (entries : List (List ℕ)) → HasEntriesAt self.old.octets.now self.old.gate entries → IsNextEntry self.old.gate entries self.new.octets.now self.new.gate result }
        ensures same { self.new.octets.now ≡ self.old.octets.now }
        ensures done { IsNone result → self.new.gate ≡ self.old.gate }
        ensures goes_on { IfSome result (λ _. (self.old.gate < self.new.gate) × (self.new.gate < length self.old.octets.now)) }
    {
        let (gate, behind) = self.octets.get(self.gate..)?.split_first()?;
        if *gate != OPEN {
            return None;
        }
        let entry = first_entry(behind)?;
        let place = self.gate as u64 + 1;
        self.gate += entry.len() + 5;
        Some((place, entry))
    }
}

/// The log that these octets are, of any store, kind, number and generation.
pub fn check_log(octets: Octets) -> Result<LogText, LogError>
    ensures checked { IfOk result (λ text. (entries : List (List ℕ)) × IsLogText text entries × (text.octets ≡ octets)) }
    ensures refused { IfErr result (IsDamage None octets) }
{
    match read_head(octets.as_slice()) {
        Ok(head) => check_entries(octets, head),
        Err(place) => Err(LogError::LogDamaged(place)),
    }
}

/// The log of this head that these octets are.
pub fn check_log_of(octets: Octets, head: LogHead) -> Result<LogText, LogError>
    requires version { IsVersionOf head.kind head.version }
    ensures checked { IfOk result (λ text. (entries : List (List ℕ)) × IsLogText text entries × (text.octets ≡ octets) × (text.head ≡ head)) }
    ensures refused { IfErr result (IsDamage (Some head) octets) }
{
    match check_head(octets.as_slice(), head) {
        Ok(()) => check_entries(octets, head),
        Err(place) => Err(LogError::LogDamaged(place)),
    }
}

/// Checks the gates behind a head.
fn check_entries(octets: Octets, head: LogHead) -> Result<LogText, LogError>
    requires fits { HeadFits head }
    requires gate { 25 < length octets }
    requires whole { take 25 octets ≡ head_octets head }
    ensures checked { IfOk result (λ text. (entries : List (List ℕ)) × IsLogText text entries × (text.octets ≡ octets) × (text.head ≡ head)) }
    ensures refused { (asked : Option LogHead) → IsTaken asked head → IfErr result (IsDamage asked octets) }
{
    let text = octets.as_slice();
    let mut gate = HEAD_SIZE;
    let mut count = 0;
    while text[gate] == OPEN && gate + 1 < text.len() {
        let Some(entry) = first_entry(&text[gate + 1..]) else {
            return Err(LogError::LogDamaged(gate as u64 + 1));
        };
        gate += entry.len() + 5;
        count += 1;
    }
    Ok(LogText {
        head,
        octets,
        end: gate as u64,
        count,
    })
}
