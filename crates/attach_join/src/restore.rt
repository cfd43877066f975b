// A message from its detached form.
ghost use Rattle.std.specs.Prelude.{◌≡◌, ◌≤◌, ℕ, List, length, IfOk};
ghost use Rattle.model_attach.specs.Detached.{AreDetached};

use crate::join::rejoin;
use mdbox_base::{ExtRef, NoMemory, Octets, Seq};
use model_attach::JoinError;
use std::alloc::Global;

/// The message whose detached form these are. Rejoining finds nothing wrong with one.
pub fn rejoin_detached(
    alloc: Global,
    body: &[u8],
    whole: u64,
    refs: &Seq<ExtRef>,
    instances: &Seq<Octets>,
) -> Result<Octets, NoMemory>
    ghost message: { List ℕ }
    requires detached { AreDetached message body.now refs.now instances.now }
    requires size { (whole ≡ length message) × (length message ≤ 67108864) }
    ensures { IfOk result (λ octets. octets ≡ message) }
{
    match rejoin(alloc, body, whole, refs, instances) {
        Ok(octets) => Ok(octets),
        Err(error) => match error {
            JoinError::NoMemory => Err(NoMemory),
            _ => unreachable!(),
        },
    }
}
