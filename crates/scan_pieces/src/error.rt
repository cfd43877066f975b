// Why a storage file was not scanned.
ghost use Rattle.std.specs.Prelude.{◌≡◌, Some};
ghost use Rattle.model_storage.specs.Places.{refusal_of};
ghost use Rattle.model_storage.specs.declared.places.ScanError.TheVariants as scan;
ghost use Rattle.scan_pieces.specs.Scanned.{pieces_error_text};
ghost use Rattle.scan_pieces.specs.declared.error.PiecesError.TheVariants as pieces;

use dbox_file::{PlaceError, ScanError};
use mdbox_base::NoMemory;
use std::error::Error;
use std::fmt;
use storage_files::DiskFault;

/// Why a storage file was not scanned.
#[derive(Clone, Copy, Debug, PartialEq, Eq)]
pub enum PiecesError {
    /// Its octets aren't a storage file; or there was no memory for the places.
    Refused(ScanError),
    /// The device failed; the disk has counted it.
    Fault,
}

impl fmt::Display for PiecesError {
    ghost output = { λ error. Some (pieces_error_text error) };

    fn fmt<W: fmt::Write>(&self, f: &mut fmt::Formatter<W>) -> fmt::Result {
        f.write_str(match self {
            PiecesError::Refused(ScanError::NoMemory) => "out of memory",
            PiecesError::Refused(_) => "no storage file",
            PiecesError::Fault => "disk fault",
        })
    }
}

impl Error for PiecesError {}

impl From<DiskFault> for PiecesError {
    ghost from_gives = { λ _ error. error ≡ pieces.Fault };

    fn from(_error: DiskFault) -> PiecesError {
        PiecesError::Fault
    }
}

impl From<ScanError> for PiecesError {
    ghost from_gives = { λ cause error. error ≡ pieces.Refused cause };

    fn from(error: ScanError) -> PiecesError {
        PiecesError::Refused(error)
    }
}

impl From<PlaceError> for PiecesError {
    ghost from_gives = { λ cause error. error ≡ pieces.Refused (refusal_of cause) };

    fn from(error: PlaceError) -> PiecesError {
        PiecesError::Refused(ScanError::from(error))
    }
}

impl From<NoMemory> for PiecesError {
    ghost from_gives = { λ _ error. error ≡ pieces.Refused scan.NoMemory };

    fn from(_error: NoMemory) -> PiecesError {
        PiecesError::Refused(ScanError::NoMemory)
    }
}
