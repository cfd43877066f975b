// The hash of each instance that a taken message names.
ghost use Rattle.std.specs.Prelude.{◌≡◌, ◌++◌, ◌&&◌, ◌||◌, List, not, false, OnOk};
ghost use Rattle.std.specs.List.{list_any};
ghost use Rattle.std.specs.Str.{bytes_eq};
ghost use Rattle.mdbox_base.specs.declared.entries.InstRow.{InstRow};
ghost use Rattle.model_taken.specs.NamedInstances.{is_other_hash, names_otherwise};
ghost use Rattle.rebuild_judge.specs.Kept.{AreHashesOf, NameNoOther};

use mdbox_base::{ExtRef, Hash, InstRow, NoMemory};
use std::collections::BTreeMap;

/// Whether a reference names an id that these instances, or a reference before it, have with another hash.
pub fn name_otherwise(hashes: &BTreeMap<[u8; 16], Hash>, refs: &[ExtRef]) -> bool
    ensures { (named : List InstRow) → AreHashesOf hashes.now named → result ≡ names_otherwise named refs.now }
{
    let mut rest = refs;
    while let Some((first, others)) = rest.split_first() {
        if is_named_otherwise(hashes, first, others) {
            return true;
        }
        rest = others;
    }
    false
}

/// Whether an instance, or one of the other references, has the reference's id with another hash.
fn is_named_otherwise(hashes: &BTreeMap<[u8; 16], Hash>, first: &ExtRef, others: &[ExtRef]) -> bool
    ensures { (named : List InstRow) → AreHashesOf hashes.now named → result ≡ (list_any (λ row. is_other_hash row.hash row.id first.now) named || list_any (λ other. is_other_hash first.now.hash first.now.id other) others.now) }
{
    has_other(hashes, first) || any_other(first, others)
}

/// Whether one of the other references has the reference's id with another hash.
fn any_other(first: &ExtRef, others: &[ExtRef]) -> bool
    ensures { result ≡ list_any (λ other. is_other_hash first.now.hash first.now.id other) others.now }
{
    others.iter().any(|other| is_other(first, other))
}

/// Whether an instance with the reference's id has another hash.
fn has_other(hashes: &BTreeMap<[u8; 16], Hash>, reference: &ExtRef) -> bool
    ensures { (named : List InstRow) → AreHashesOf hashes.now named → result ≡ list_any (λ row. is_other_hash row.hash row.id reference.now) named }
{
    match hashes.get(&reference.id.0) {
        Some(hash) => *hash != reference.hash,
        None => false,
    }
}

/// Whether the second reference names the id of the first with another hash.
fn is_other(first: &ExtRef, second: &ExtRef) -> bool
    ensures { result ≡ is_other_hash first.now.hash first.now.id second.now }
{
    first.id == second.id && first.hash != second.hash
}

/// Adds instances, none of which has an id with another hash.
pub fn add_hashes(hashes: &mut BTreeMap<[u8; 16], Hash>, rows: &[InstRow]) -> Result<(), NoMemory>
    ensures { OnOk result ((named : List InstRow) → AreHashesOf hashes.old named → NameNoOther named rows.now → AreHashesOf hashes.new (named ++ rows.now)) }
{
    let mut rest = rows;
    while let Some((row, others)) = rest.split_first() {
        hashes.insert(row.id.0, row.hash)?;
        rest = others;
    }
    Ok(())
}
