// Why a store was not changed.
ghost use Rattle.std.specs.Prelude.{◌≡◌};
ghost use Rattle.store_core.specs.declared.error.StepError.TheVariants as step_error;

use gate_log::DiskFault;
use mdbox_base::NoMemory;

/// Why a store was not changed as asked.
#[derive(Clone, Copy, Debug, PartialEq, Eq)]
pub enum StepError {
    /// A change of the disk failed: the store is stopped.
    Stopped,
    /// Out of memory: nothing has changed.
    NoMemory,
}

/// A change of the disk failed: the store is stopped. It is the only error of a call that takes no memory.
#[derive(Clone, Copy, Debug, PartialEq, Eq)]
pub struct Stopped;

/// Why an instance was not placed.
#[derive(Clone, Copy, Debug, PartialEq, Eq)]
pub enum PlaceStop {
    /// The numbers of instances are used up. The last is told.
    Full(u64),
    /// A change of the disk failed: the store is stopped.
    Stopped,
    /// Out of memory: nothing has changed.
    NoMemory,
}

impl From<DiskFault> for StepError {
    ghost from_gives = { λ _ error. error ≡ step_error.Stopped };

    fn from(_fault: DiskFault) -> StepError {
        StepError::Stopped
    }
}

impl From<NoMemory> for StepError {
    ghost from_gives = { λ _ error. error ≡ step_error.NoMemory };

    fn from(_error: NoMemory) -> StepError {
        StepError::NoMemory
    }
}
