// Entries of the root log.
ghost use Rattle.std.specs.Prelude.{◌≡◌, ◌++◌, ℕ, MatchOption, MatchResult, OnOk, OnErr};
ghost use Rattle.mdbox_base.specs.declared.entries.RootEntry.{RootEntry};
ghost use Rattle.model_logs.specs.Entries.{root_text, RootInRange, IsRootText};

use crate::fields::only_number;
use mdbox_base::{NoMemory, Octets, RootEntry};

/// Adds an entry's octets. Without memory nothing is added.
pub fn push_root_entry(out: &mut Octets, entry: &RootEntry) -> Result<(), NoMemory>
    requires { RootInRange entry.now }
    ensures ok { OnOk result (out.new ≡ out.old ++ root_text entry.now) }
    ensures err { OnErr result (out.new ≡ out.old) }
{
    let RootEntry::M { generation } = entry;
    let [a, b, c, d] = generation.to_be_bytes();
    out.push_all(&[b'M', a, b, c, d])
}

/// The entry that the octets are. None if and only if they aren't one; takes no memory.
pub fn read_root_entry(text: &[u8]) -> Result<Option<RootEntry>, NoMemory>
    ensures { MatchResult result (λ entry. MatchOption entry ((other : RootEntry) → IsRootText text.now other → ⊥) (IsRootText text.now)) (λ _. ⊥) }
{
    Ok(root_entry(text))
}

fn root_entry(text: &[u8]) -> Option<RootEntry>
    ensures { MatchOption result ((other : RootEntry) → IsRootText text.now other → ⊥) (IsRootText text.now) }
{
    match text {
        [b'M', fields @ ..] => {
            let generation = only_number(fields)?;
            Some(RootEntry::M { generation })
        }
        _ => None,
    }
}
