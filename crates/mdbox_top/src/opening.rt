// What an opening answers, as the end of a run.
ghost use Rattle.std.specs.Prelude.{◌≡◌};
ghost use Rattle.mdbox_top.specs.OpeningOutcome.{opening_outcome};

use request_text::{Outcome, StoreRefusal};
use store_open::OpenError;

/// The end of a run whose store was not made or opened.
pub fn outcome_of(error: OpenError) -> Outcome
    ensures { result ≡ opening_outcome error }
{
    match error {
        OpenError::NoStore => Outcome::StoreRefused(StoreRefusal::NoStore),
        OpenError::StoreWhole => Outcome::StoreRefused(StoreRefusal::StoreWhole),
        OpenError::MailFiles => Outcome::StoreRefused(StoreRefusal::MailFiles),
        OpenError::Damaged(name, place) => {
            Outcome::StoreRefused(StoreRefusal::Damaged(name, place))
        }
        OpenError::DiskFault => Outcome::DiskFault,
        OpenError::NoMemory => Outcome::NoMemory,
    }
}
