// Mailbox names.
ghost use Rattle.std.specs.Prelude.{◌≡◌, ◌≢◌, ◌≤◌, ◌↔◌, ℕ, List, All, IsTrue, IsErr, IfOk, IfSome, IfNone};
ghost use Rattle.mdbox_base.specs.Words.{IsName};

use crate::memory::NoMemory;
use crate::octets::Octets;
use std::alloc::Global;
use std::marker::Model;

/// A mailbox name: 1 to 255 octets of UTF-8 without control octets (below 20 hex, and 7F).
#[derive(Drop)]
pub struct Name {
    octets: Octets,
}

impl Model for Name {
    ghost Value = { List ℕ };

    ghost view = { λ n. n.octets };

    ghost invariant = { λ n. IsName n.octets };
}

impl Name {
    /// The name's octets.
    pub fn as_octets(&self) -> &[u8]
        ensures same { result.now ≡ self.now }
        ensures name { IsName result.now }
    {
        self.octets.as_slice()
    }
}

/// The name of this text, where it is a name. Only a name takes memory.
pub fn name_of(alloc: Global, text: &[u8]) -> Result<Option<Name>, NoMemory>
    ensures some { IfOk result (λ name. IfSome name (λ n. (n ≡ text.now) × IsName text.now)) }
    ensures none { IfOk result (λ name. IfNone name (IsName text.now → ⊥)) }
    ensures memory { IsErr result → IsName text.now }
{
    if !is_name(text) {
        return Ok(None);
    }
    let mut octets = Octets::empty(alloc);
    octets.push_all(text)?;
    Ok(Some(Name { octets }))
}

fn is_name(text: &[u8]) -> bool
    ensures { IsTrue result ↔ IsName text.now }
{
    (1..=255).contains(&text.len()) && is_printing(text) && str::from_utf8(text).is_ok()
}

/// Whether no octet is a control octet.
fn is_printing(text: &[u8]) -> bool
    ensures { IsTrue result ↔ (All (λ octet. 32 ≤ octet) text.now × All (λ octet. octet ≢ 127) text.now) }
{
    text.iter().all(|octet| *octet >= 32) && text.iter().all(|octet| *octet != 127)
}
