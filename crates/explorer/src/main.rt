//! Does the cases of the files that its words name, each on a disk in memory, and prints where the program does otherwise than they
//! want.
#![tactic(auto)]

use anyhow::{Result, bail};
use case_text::Counts;
use cases::Cases;
use std::{env, fs};

mod cases;
mod course;
mod damage;
mod files;
mod folder;
mod orders;
mod plain;
mod runs;
mod seen;
mod setting;
mod streams;
mod trial;
mod trouble;
mod turns;
mod two_lanes;

/// The first file has octets that the cases of the others name.
fn main(rt: HostRuntime) -> Result<()> {
    let mut base = String::new(rt.alloc());
    let mut all = Counts::NONE;
    for name in env::args(&rt)?.skip(1) {
        let text = fs::read_to_string(&rt, name.as_str())?;
        if base.is_empty() {
            base = text;
        } else {
            let counts = play(rt, name.as_str(), base.as_str(), text.as_str())?;
            all = all.and(counts);
        }
    }
    tell(rt, "all", all)?;
    if all.differences > 0 {
        bail!("{} lines differ", all.differences);
    }
    Ok(())
}

/// Does the cases of a file, and prints what differs.
fn play(rt: HostRuntime, name: &str, base: &str, text: &str) -> Result<Counts> {
    let mut cases = Cases::of(rt)?;
    cases.define(base)?;
    cases.play(text)?;
    let counts = cases.counts();
    tell(rt, name, counts)?;
    rt.print(cases.differences())?;
    Ok(counts)
}

fn tell(rt: HostRuntime, name: &str, counts: Counts) -> Result<()> {
    let (cases, runs, images) = (counts.cases, counts.runs, counts.images);
    let differences = counts.differences;
    println!(rt; "{name}: {cases} cases, {runs} runs, {images} images, {differences} differences")?;
    Ok(())
}
