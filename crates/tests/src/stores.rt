// Builders: logs and whole stores as octets, files on a disk in memory, and all that a crash can leave of it.
pub use crashes::each_crash;
pub use files::{file_octets, put_file, put_unsynced};
pub use logs::{BOX_HEAD, ID, log_octets};
pub use whole::StoreFiles;

mod crashes;
pub mod entries;
mod files;
mod logs;
mod whole;
