// The error of storage files.
ghost use Rattle.std.specs.Prelude.{Some, codes};

use disk_model::DiskError;
use std::error::Error;
use std::fmt;

/// The device failed; the disk has counted it. A file that was to be changed isn't used again.
#[derive(Clone, Copy, Debug, PartialEq, Eq)]
pub struct DiskFault;

impl fmt::Display for DiskFault {
    ghost output = { λ _. Some (codes "disk fault") };

    fn fmt<W: fmt::Write>(&self, f: &mut fmt::Formatter<W>) -> fmt::Result {
        f.write_str("disk fault")
    }
}

impl Error for DiskFault {}

impl From<DiskError> for DiskFault {
    fn from(_error: DiskError) -> DiskFault {
        DiskFault
    }
}
