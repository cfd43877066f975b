// How a lock is closed.
ghost use Rattle.std.specs.Prelude.{◌≡◌, All, Bool, sum_by};
ghost use Rattle.turn_lock.specs.LockRule.{StartsWith};
ghost use Rattle.turn_lock.specs.Seats.{IsFreeSeat, IsUnder, parts_with, seen_by};

use crate::charter::Charter;
use crate::lock::{TurnLock, TurnSeat};
use crate::steps::Joined;
use mdbox_base::Seq;

/// The world, once all seats are back: those that have the lock's 64 parts among them.
pub fn close_lock<W: Charter + Send>(lock: TurnLock<W>, seats: Seq<TurnSeat<W>>) -> W
    requires free { All (λ seat. IsFreeSeat lock seat) seats }
    requires all { sum_by parts_with seats ≡ 64 }
    ensures charter { (charter : W.Terms) (finished : Bool) → All (λ seat. IsUnder charter finished seat) seats → (W.charter result ≡ charter) × (W.finished result ≡ finished) }
    ensures trace { All (λ seat. StartsWith (W.trace result) (seen_by seat)) seats }
{
    let TurnLock { table } = lock;
    let mut seats = seats.into_vec();
    let Some(last) = seats.pop() else {
        unreachable!()
    };
    let TurnSeat {
        seat: mut first,
        patience: _,
        more: _,
    } = last;
    while let Some(next) = seats.pop() {
        let TurnSeat {
            seat: other,
            patience: _,
            more: _,
        } = next;
        table.shared.join_seat::<Joined>(&mut first, other);
    }
    seats.destroy_empty();
    let mut closed = table.close_with(first);
    let Some(world) = closed.take(0) else {
        unreachable!()
    };
    closed.free();
    world
}
