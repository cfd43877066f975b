//! The types that the whole store speaks of, numbers as text, sources and sinks of octets, and clocks.
#![tactic(auto)]

pub use clock::{Clock, ClockFault, MemClock};
pub use entries::{BoxEntry, Highest, InstRow, MapCount, MapEntry, MapPlace, RootEntry};
pub use flags::{Flags, flags_of};
pub use ids::{BoxNo, FileNo, Guid, Hash, InstId, MapUid, StoreId, Uid};
pub use lower_hex::read_lower_hex;
pub use mem_stream::{MemSink, MemSource};
pub use memory::NoMemory;
pub use metadata::{ExtRef, LineForm};
pub use name::{Name, name_of};
pub use number_range::{LAST_NUMBER, is_number};
pub use numbers::{push_decimal, push_hex, read_decimal, read_hex};
pub use octets::Octets;
pub use progress::{Did, Progress};
pub use replies::{ListRow, Refusal, Reply};
pub use requests::Request;
pub use script::{Half, JournalEntry, Script};
pub use seq::Seq;
pub use stream::{InputError, Sink, SinkFault, Source, SourceFault, give_all, read_all};
pub use words::{Words, are_words, copied_texts, is_keyword, words_of};

mod clock;
mod entries;
mod flags;
mod ids;
mod lower_hex;
mod mem_stream;
mod memory;
mod metadata;
mod name;
mod number_range;
mod numbers;
mod octets;
mod progress;
mod replies;
mod requests;
mod script;
mod seq;
mod stream;
mod words;
