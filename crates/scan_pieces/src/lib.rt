//! A storage file that is read in pieces: never more of it than a window is in memory.
#![tactic(auto)]

pub use error::PiecesError;
pub use pieces::scan_pieces;
pub use storage_files::DiskFault;
pub use window::Window;

mod device;
mod error;
mod header;
mod part;
mod pieces;
mod window;
