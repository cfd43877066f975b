//! A folder whose files stay open.
#![tactic(auto)]

pub use files::KeptFile;
pub use kept::KeptFolder;

mod files;
mod kept;
