//! Cases as text: names for octets, what the lines of a case say, what they want, and how what was found is printed in the form in
//! which it is wanted.
#![tactic(auto)]

pub use error::CaseError;
pub use page::{Command, Page, Taken};
pub use report::{Counts, Report};
pub use shown::{Stream, push_shown};
pub use spans::Spans;
pub use texts::Texts;

mod base64_lines;
mod error;
mod numbered;
mod page;
mod report;
mod shown;
mod spans;
mod texts;
mod written;
