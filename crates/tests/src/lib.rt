//! Tests of what neither the cases of whole runs nor the vectors show, a module for each topic, and builders for them.
#![tactic(auto)]

pub use tasks::{AnyTask, Makes, Race, Turn, Turns, advance};

#[cfg(test)]
mod disk;
#[cfg(test)]
mod files;
#[cfg(test)]
mod instances;
#[cfg(test)]
mod messages;
#[cfg(test)]
mod real;
#[cfg(test)]
mod stores;
mod tasks;
