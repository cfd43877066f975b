//! Takes the message on standard input apart and puts it together again, to be timed. The word `read` only reads it,
//! `prepare` takes it apart, and `both` puts it together too.
#![tactic(auto)]

ghost use Rattle.std.specs.Prelude.{◌≡◌, ◌≤◌, true, ℕ, List, length, map, IfOk};
ghost use Rattle.attach_detach.specs.Prepared.{IsPrepared, NameParts};

use anyhow::{Result, bail};
use attach_detach::{Detached, Prepared, prepare, prepared_is_detached};
use attach_join::rejoin_detached;
use mdbox_base::{ExtRef, InstId, NoMemory, Octets, Seq, read_all};
use os_folder::StdSource;
use std::alloc::Global;
use std::env;

/// The most octets that a message may have.
const LIMIT: u64 = 67_108_864;

fn main(rt: HostRuntime) -> Result<()> {
    let word = env::args(&rt)?.nth(1);
    let message = read_all(rt.alloc(), &mut StdSource::of(rt.stdin()), LIMIT)?;
    match word.as_deref() {
        Some("read") => print_size(&rt, &message),
        Some("prepare") => print_prepared(&rt, &message),
        Some("both") => print_both(&rt, &message),
        _ => bail!("usage: parts_bench read|prepare|both"),
    }
}

fn print_size(rt: &impl Print, message: &Octets) -> Result<()> {
    println!(rt; "whole {}", message.length())?;
    Ok(())
}

fn print_prepared(rt: &(impl Print + AllocGlobal), message: &Octets) -> Result<()>
    requires { length message.now ≤ 67108864 }
{
    let prepared = prepare(rt.alloc(), message.as_slice())?;
    print_sizes(rt, &prepared)
}

fn print_both(rt: &(impl Print + AllocGlobal), message: &Octets) -> Result<()>
    requires { length message.now ≤ 67108864 }
{
    let prepared = prepare(rt.alloc(), message.as_slice())?;
    print_sizes(rt, &prepared)?;
    let is_same = is_same_again(rt.alloc(), message.as_slice(), prepared)?;
    println!(rt; "same {is_same}")?;
    Ok(())
}

fn print_sizes(rt: &impl Print, prepared: &Prepared) -> Result<()> {
    let body = prepared.body.length();
    let parts = prepared.parts.length();
    println!(rt;
        "body {body}, parts {parts}, whole {}, virtual {}",
        prepared.whole, prepared.virtual_size
    )?;
    Ok(())
}

/// Whether a message is the same when it is put together again.
fn is_same_again(alloc: Global, message: &[u8], prepared: Prepared) -> Result<bool, NoMemory>
    ghost text: { List ℕ }
    requires message { message.now ≡ text }
    requires prepared { IsPrepared text prepared }
    requires small { length text ≤ 67108864 }
    ensures { IfOk result (λ is_same. is_same ≡ true) }
{
    let size = u64::from(prepared.whole);
    let (refs, instances) = named(alloc, prepared.parts)?;
    prepared_is_detached();
    let whole = rejoin_detached(alloc, prepared.body.as_slice(), size, &refs, &instances)?;
    Ok(whole.as_slice() == message)
}

/// References that name these parts, and their instances.
fn named(alloc: Global, parts: Seq<Detached>) -> Result<(Seq<ExtRef>, Seq<Octets>), NoMemory>
    ensures { IfOk result (λ found. NameParts found.0 parts × (found.1 ≡ map (λ d. d.octets) parts)) }
{
    let mut refs = Seq::empty(alloc);
    let mut instances = Seq::empty(alloc);
    for part in parts.into_vec() {
        refs.push(reference_to(&part))?;
        instances.push(part.octets)?;
    }
    Ok((refs, instances))
}

/// A reference that names a part.
fn reference_to(part: &Detached) -> ExtRef
    ensures { (result.start ≡ part.now.start) × (result.count ≡ part.now.count) × (result.form ≡ part.now.form) × (result.hash ≡ part.now.hash) }
{
    ExtRef {
        start: part.start,
        count: part.count,
        form: part.form,
        hash: part.hash,
        id: InstId([0; 16]),
    }
}
