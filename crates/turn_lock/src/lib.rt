//! A lock that hands one world from seat to seat, in the order of tickets.
#![tactic(auto)]

pub use charter::Charter;
pub use close::close_lock;
pub use lock::{LockRefused, TurnLock, TurnSeat};
pub use make::make_lock;

mod charter;
mod close;
mod lock;
mod make;
mod patience;
mod place;
mod steps;
mod turn;
