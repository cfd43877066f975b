// Why a text isn't a script, and why no request was read or taken.
use crate::flaw::Need;
use mdbox_base::{NoMemory, SourceFault};

/// Why no script was read.
#[derive(Clone, Copy, Debug, PartialEq, Eq)]
pub enum ScriptError {
    /// The request that begins at this offset isn't one, or it is the 100,001st.
    Bad(u64),
    NoMemory,
}

impl From<NoMemory> for ScriptError {
    ghost use Rattle.std.specs.Prelude.{◌≡◌};
    ghost use Rattle.script_text.specs.declared.error.ScriptError.TheVariants as script_error;

    ghost from_gives = { λ _ error. error ≡ script_error.NoMemory };

    fn from(_error: NoMemory) -> ScriptError {
        ScriptError::NoMemory
    }
}

/// Why no request was read.
#[derive(Clone, Copy, Debug, PartialEq, Eq)]
pub enum Flaw {
    /// None stands there.
    Bad,
    NoMemory,
}

impl From<NoMemory> for Flaw {
    ghost use Rattle.std.specs.Prelude.{◌≡◌};
    ghost use Rattle.script_text.specs.declared.error.Flaw.TheVariants as flaw;

    ghost from_gives = { λ _ error. error ≡ flaw.NoMemory };

    fn from(_error: NoMemory) -> Flaw {
        Flaw::NoMemory
    }
}

/// Why no request was taken from a source.
#[derive(Clone, Copy, Debug, PartialEq, Eq)]
pub enum TakeError {
    /// None stands there: this is missing first.
    Bad(Need),
    /// The source failed.
    Fault,
    NoMemory,
}

impl From<NoMemory> for TakeError {
    ghost use Rattle.std.specs.Prelude.{◌≡◌};
    ghost use Rattle.script_text.specs.declared.error.TakeError.TheVariants as take_error;

    ghost from_gives = { λ _ error. error ≡ take_error.NoMemory };

    fn from(_error: NoMemory) -> TakeError {
        TakeError::NoMemory
    }
}

impl From<SourceFault> for TakeError {
    ghost use Rattle.std.specs.Prelude.{◌≡◌};
    ghost use Rattle.script_text.specs.declared.error.TakeError.TheVariants as take_error;

    ghost from_gives = { λ _ error. error ≡ take_error.Fault };

    fn from(_error: SourceFault) -> TakeError {
        TakeError::Fault
    }
}
