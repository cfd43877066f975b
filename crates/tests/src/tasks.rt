// Two tasks over one store whose events take turns, calls of an open store that no request makes, and the texts of replies that no
// command gives.
pub use makes::Makes;
pub use race::{AnyTask, Race, Turn};
pub use turn::{Turns, advance};

#[cfg(test)]
mod deliveries;
#[cfg(test)]
mod events;
#[cfg(test)]
mod instances;
mod makes;
#[cfg(test)]
mod making;
#[cfg(test)]
mod placing;
mod race;
#[cfg(test)]
mod racing;
#[cfg(test)]
mod replies;
#[cfg(test)]
mod resyncs;
#[cfg(test)]
mod stores;
mod turn;
#[cfg(test)]
mod turns;
