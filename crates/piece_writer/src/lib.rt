//! Output gathered in pieces.
#![tactic(auto)]

pub use error::PrintError;
pub use text::write_text;
pub use writer::PieceWriter;

mod error;
mod text;
mod writer;
