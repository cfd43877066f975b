// Logs by their octets.
use crate::line_text::{push_line, push_octets};
use case_text::Spans;
use gate_log::{LogError, read_log};
use mdbox_base::NoMemory;
use std::alloc::Global;

/// The entries of a log, each with the place of its record, of many the first ones, and where its last gate stands. Or why it
/// is none.
pub fn tell_log(alloc: Global, out: &mut String, octets: &[u8]) -> Result<(), NoMemory> {
    let read = match read_log(alloc, octets) {
        Ok(read) => read,
        Err(LogError::NoMemory) => return Err(NoMemory),
        Err(error) => {
            let text = format!(in alloc; "{error}")?;
            return push_line(out, text.as_str());
        }
    };
    for (entry, place) in read
        .entries
        .as_slice()
        .iter()
        .zip(read.places.as_slice())
        .take(4)
    {
        let place = *place;
        let text = format!(in alloc; "{place}: ")?;
        push_octets(out, text.as_str(), entry.as_slice())?;
    }
    let (count, end) = (read.entries.length(), read.end);
    let text = format!(in alloc; "{count} entries, end {end}")?;
    push_line(out, text.as_str())
}

/// What a log of so many first octets has, for each number of them.
pub fn tell_cuts(alloc: Global, out: &mut String, octets: &[u8]) -> Result<(), NoMemory> {
    let mut spans = Spans::of(alloc, "cut");
    for size in 0..=octets.len() {
        let cut = match octets.get(..size) {
            Some(cut) => cut,
            None => octets,
        };
        spans.add(size as u64, of_cut(alloc, cut)?)?;
    }
    spans.put(out)
}

fn of_cut(alloc: Global, octets: &[u8]) -> Result<String, NoMemory> {
    Ok(match read_log(alloc, octets) {
        Ok(read) => {
            let (count, end) = (read.entries.length(), read.end);
            format!(in alloc; "{count} entries, end {end}")?
        }
        Err(LogError::NoMemory) => return Err(NoMemory),
        Err(LogError::LogDamaged(place)) if place == octets.len() as u64 => {
            String::from_str(alloc, "log damaged at its end")?
        }
        Err(error) => format!(in alloc; "{error}")?,
    })
}
