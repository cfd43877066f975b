// Errors of a disk.
ghost use Rattle.std.specs.Prelude.{Some};
ghost use Rattle.disk_model.specs.Error.{disk_error_text};

use std::error::Error;
use std::fmt;

/// Why a disk's call did nothing, or not all.
#[derive(Clone, Copy, Debug, PartialEq, Eq)]
pub enum DiskError {
    /// The device failed, and the disk has counted it. Of a change a crash may then leave a part.
    Failed,
    /// There is no file of that name. Only `length` and `read_at` answer it.
    Absent,
}

impl fmt::Display for DiskError {
    ghost output = { λ error. Some (disk_error_text error) };

    fn fmt<W: fmt::Write>(&self, f: &mut fmt::Formatter<W>) -> fmt::Result {
        f.write_str(match self {
            DiskError::Failed => "the device failed",
            DiskError::Absent => "no such file",
        })
    }
}

impl Error for DiskError {}
