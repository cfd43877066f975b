// The references of an `X` line, read.
ghost use Rattle.std.specs.Prelude.{◌≡◌, ◌<◌, ◌≤◌, false, [], List, length, vec_capacity, IfOk, IfSome, IfNone, IsTrue};
ghost use Rattle.mdbox_base.specs.declared.metadata.ExtRef.{ExtRef};
ghost use Rattle.model_storage.specs.References.{AreReferences};

use crate::reference::reference_at;
use mdbox_base::{ExtRef, NoMemory, Seq};
use std::alloc::Global;

/// The references that the value of an `X` line spells. None if and only if it spells none.
pub fn read_refs(alloc: Global, value: &[u8]) -> Result<Option<Seq<ExtRef>>, NoMemory>
    ensures some { IfOk result (λ found. IfSome found (AreReferences value.now)) }
    ensures none { IfOk result (λ found. IfNone found ((refs : List ExtRef) → AreReferences value.now refs → ⊥)) }
{
    let mut refs = Seq::empty(alloc);
    let mut rest = value;
    while let Some((reference, behind)) = reference_at(rest) {
        refs.push(reference)?;
        if behind.is_empty() {
            return Ok(Some(refs));
        }
        let Some(more) = behind.strip_prefix(b" ") else {
            return Ok(None);
        };
        rest = more;
    }
    Ok(None)
}

/// Adds the references that the value of an `X` line spells. No if and only if it spells none, or more than there is room for;
/// then `refs` may hold any. It takes no memory.
pub fn fill_refs(refs: &mut Vec<ExtRef>, value: &[u8]) -> bool
    requires empty { refs.old.items ≡ [] }
    ensures yes { IsTrue result → AreReferences value.now refs.new.items }
    ensures no { result ≡ false → (found : List ExtRef) → AreReferences value.now found → vec_capacity refs.old < length found }
    ensures kept { vec_capacity refs.old ≤ vec_capacity refs.new }
{
    let room = refs.capacity();
    let mut rest = value;
    while let Some((reference, behind)) = reference_at(rest) {
        if refs.len() >= room {
            return false;
        }
        let Ok(()) = refs.push(reference) else {
            unreachable!()
        };
        if behind.is_empty() {
            return true;
        }
        let Some(more) = behind.strip_prefix(b" ") else {
            return false;
        };
        rest = more;
    }
    false
}
