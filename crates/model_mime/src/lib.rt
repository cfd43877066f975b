//! Lines, header fields and parts of a message (RFC 2045, RFC 2046), and their laws.
#![tactic(auto)]

pub use mime::{Boundary, Coding, Fields, Kind, Line, Part};

mod mime;
pub mod parts;
