//! What of a run is done in threads: the messages of a script are prepared, and its lanes are served.
#![tactic(auto)]

pub use all::prepare_all;
pub use pause::{NoPause, Pause};
pub use preparer::{InThreads, InTurn, Preparer};
pub use run::run_lanes;
pub use turn::prepare_in_turn;

mod all;
mod alone;
mod handed;
mod job;
mod pause;
mod preparer;
mod run;
mod turn;
mod work;
