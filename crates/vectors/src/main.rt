//! Does the cases of the files that its words name: functions over octets, of which it prints what they answer, where that is
//! otherwise than the cases want.
#![tactic(auto)]

use anyhow::{Result, bail};
use case_text::Counts;
use cases::Cases;
use std::{env, fs};

mod bodies;
mod cases;
mod entries;
mod line_text;
mod lists;
mod logs;
mod mail;
mod metadata;
mod numbers;
mod scripts;
mod storage;

fn main(rt: HostRuntime) -> Result<()> {
    let mut all = Counts::NONE;
    for name in env::args(&rt)?.skip(1) {
        let text = fs::read_to_string(&rt, name.as_str())?;
        let counts = play(rt, name.as_str(), text.as_str())?;
        all = all.and(counts);
    }
    tell(rt, "all", all)?;
    if all.differences > 0 {
        bail!("{} lines differ", all.differences);
    }
    Ok(())
}

/// Does the cases of a file, and prints what differs.
fn play(rt: HostRuntime, name: &str, text: &str) -> Result<Counts> {
    let mut cases = Cases::of(rt.alloc());
    cases.play(text)?;
    let counts = cases.counts();
    tell(rt, name, counts)?;
    rt.print(cases.differences())?;
    Ok(counts)
}

fn tell(rt: HostRuntime, name: &str, counts: Counts) -> Result<()> {
    let (cases, calls) = (counts.cases, counts.runs);
    let differences = counts.differences;
    println!(rt; "{name}: {cases} cases, {calls} calls, {differences} differences")?;
    Ok(())
}
