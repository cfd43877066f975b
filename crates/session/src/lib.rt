//! A session: requests are done as they come, over a store that is opened once, each answered before the next is read.
#![tactic(auto)]

pub use laws::requests_done_are_settled;
pub use serve::serve_session;

mod laws;
mod next;
mod one;
mod serve;
