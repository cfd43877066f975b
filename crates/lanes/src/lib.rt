//! Lanes over one store: each does its requests one after another, an event at a time.
#![tactic(auto)]

pub use lane::{Lane, LaneEvent, Queued};
pub use laws::{
    entries_are_told, events_are_in_order, idle_worlds_have_replied, lanes_begin, lanes_end,
    lanes_go_on, rounds_are_events, runs_are_events, scripts_grow, turns_are_events, turns_go_on,
    worlds_begin, worlds_go_on, worlds_go_with, worlds_tell_uses,
};
pub use parts::WorldParts;
pub use turn::{Turn, Turned};
pub use world::{World, WorldRefused, world_of};

mod lane;
mod laws;
mod parts;
mod replies;
mod turn;
mod world;
