// Errors of instances.
ghost use Rattle.std.specs.Prelude.{◌≡◌, Some, codes};
ghost use Rattle.sis_store.specs.declared.error.PlaceFault.TheVariants.{DiskFault, NoMemory};
ghost use Rattle.sis_store.specs.Refusals.{place_fault_text};

use disk_model::DiskError;
use mdbox_base::NoMemory;
use std::error::Error;
use std::fmt;

/// The device failed; the disk has counted it.
#[derive(Clone, Copy, Debug, PartialEq, Eq)]
pub struct DiskFault;

/// Why an instance was not placed.
#[derive(Clone, Copy, Debug, PartialEq, Eq)]
pub enum PlaceFault {
    /// The numbers of instances are used up. The last is told.
    Full(u64),
    /// The device failed; the disk has counted it.
    DiskFault,
    /// There was no memory.
    NoMemory,
}

impl fmt::Display for DiskFault {
    ghost output = { λ _. Some (codes "disk fault") };

    fn fmt<W: fmt::Write>(&self, f: &mut fmt::Formatter<W>) -> fmt::Result {
        f.write_str("disk fault")
    }
}

impl Error for DiskFault {}

impl fmt::Display for PlaceFault {
    ghost output = { λ fault. Some (place_fault_text fault) };

    fn fmt<W: fmt::Write>(&self, f: &mut fmt::Formatter<W>) -> fmt::Result {
        f.write_str(match self {
            PlaceFault::Full(_) => "no number for an instance is left",
            PlaceFault::DiskFault => "disk fault",
            PlaceFault::NoMemory => "out of memory",
        })
    }
}

impl Error for PlaceFault {}

impl From<DiskError> for DiskFault {
    fn from(_error: DiskError) -> DiskFault {
        DiskFault
    }
}

impl From<DiskFault> for PlaceFault {
    ghost from_gives = { λ _ fault. fault ≡ DiskFault };

    fn from(_error: DiskFault) -> PlaceFault {
        PlaceFault::DiskFault
    }
}

impl From<NoMemory> for PlaceFault {
    ghost from_gives = { λ _ fault. fault ≡ NoMemory };

    fn from(_error: NoMemory) -> PlaceFault {
        PlaceFault::NoMemory
    }
}
