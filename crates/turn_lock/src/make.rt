// How a lock is made.
ghost use Rattle.std.specs.Prelude.{◌≡◌, ◌<◌, ◌≤◌, ◌∷◌, [], All, IfErr, IfOk, Some, length, sum_by};
ghost use Rattle.turn_lock.specs.Seats.{IsFreeSeat, IsUnder, parts_with, seen_by};

use crate::charter::Charter;
use crate::lock::{LockRefused, TurnLock, TurnSeat};
use crate::patience::Patience;
use crate::steps::OnePart;
use atomic_table::{Refused, Table};
use mdbox_base::Seq;
use std::alloc::{AllocFailed, Global};
use std::snapshot::Snapshot;

/// A lock round a world, and its seats. They have the lock's 64 parts among them, each one at least.
pub fn make_lock<W: Charter + Send>(
    alloc: Global,
    world: W,
    seats: u32,
) -> Result<(TurnLock<W>, Seq<TurnSeat<W>>), LockRefused<W>>
    requires seats { (1 ≤ seats) × (seats ≤ 64) }
    ensures count { IfOk result (λ made. length made.1 ≡ seats) }
    ensures free { IfOk result (λ made. All (λ seat. IsFreeSeat made.0 seat) made.1) }
    ensures all { IfOk result (λ made. sum_by parts_with made.1 ≡ 64) }
    ensures charter { IfOk result (λ made. All (λ seat. IsUnder (W.charter world) (W.finished world) seat) made.1) }
    ensures trace { IfOk result (λ made. All (λ seat. seen_by seat ≡ W.trace world) made.1) }
    ensures refused { IfErr result (λ refused. refused.world ≡ world) }
{
    let Ok(mut dealt) = Vec::with_capacity(alloc, seats as usize) else {
        return Err(LockRefused { world });
    };
    let first_world = Snapshot::of(&world);
    let slot = slot_with(alloc, world)?;
    match Table::new(alloc, &[0; 66], slot, &first_world) {
        Ok((table, mut first)) => {
            'deal: while dealt.len() + 1 < seats as usize {
                let seat = table.shared.split_seat::<OnePart>(&mut first);
                dealt.push_reserved(TurnSeat {
                    seat,
                    patience: Patience::full(),
                    more: 0,
                });
            }
            dealt.push_reserved(TurnSeat {
                seat: first,
                patience: Patience::full(),
                more: 0,
            });
            Ok((TurnLock { table }, Seq::of(dealt)))
        }
        Err(Refused { slots }) => Err(LockRefused {
            world: world_in(slots),
        }),
    }
}

/// A slot that has the world.
fn slot_with<W>(alloc: Global, world: W) -> Result<Vec<Option<W>>, LockRefused<W>>
    ensures ok { IfOk result (λ slots. slots.items ≡ Some world ∷ []) }
    ensures refused { IfErr result (λ refused. refused.world ≡ world) }
{
    let mut slots = Vec::new(alloc);
    match slots.push(Some(world)) {
        Ok(()) => Ok(slots),
        Err(AllocFailed { value }) => {
            let Some(world) = value else { unreachable!() };
            slots.destroy_empty();
            Err(LockRefused { world })
        }
    }
}

/// The world that a slot has.
fn world_in<W>(mut slots: Vec<Option<W>>) -> W
    requires { (world : W) × (slots.items ≡ Some world ∷ []) }
    ensures { slots.items ≡ Some result ∷ [] }
{
    let Some(slot) = slots.pop() else {
        unreachable!()
    };
    let Some(world) = slot else { unreachable!() };
    slots.destroy_empty();
    world
}
