// Why not all was printed.
use mdbox_base::{NoMemory, SinkFault};

/// Why not all was printed.
#[derive(Clone, Copy, Debug, PartialEq, Eq)]
pub enum PrintError {
    NoMemory,
    /// The output failed.
    WriteFault,
}

impl From<NoMemory> for PrintError {
    ghost use Rattle.std.specs.Prelude.{◌≡◌};
    ghost use Rattle.piece_writer.specs.declared.error.PrintError.TheVariants as print;

    ghost from_gives = { λ _ error. error ≡ print.NoMemory };

    fn from(_error: NoMemory) -> PrintError {
        PrintError::NoMemory
    }
}

impl From<SinkFault> for PrintError {
    ghost use Rattle.std.specs.Prelude.{◌≡◌};
    ghost use Rattle.piece_writer.specs.declared.error.PrintError.TheVariants as print;

    ghost from_gives = { λ _ error. error ≡ print.WriteFault };

    fn from(_error: SinkFault) -> PrintError {
        PrintError::WriteFault
    }
}
