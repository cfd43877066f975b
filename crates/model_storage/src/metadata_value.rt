// Metadata of a message, as the storage file has it.
use mdbox_base::{ExtRef, Guid, Name, Octets, Seq};

/// What the metadata lines of a message say. Times are Unix seconds, sizes octets.
#[derive(Drop)]
pub struct Metadata {
    pub guid: Option<Guid>,
    pub received: Option<u64>,
    /// The size of the whole message, where it isn't that of the stored body.
    pub physical: Option<u64>,
    /// The size of the whole message with each bare LF counted as two octets.
    pub virtual_size: Option<u64>,
    /// The mailbox where it was first saved.
    pub origin: Option<Name>,
    pub refs: Seq<ExtRef>,
    /// All other lines, octet for octet, in their order.
    pub unknown: Octets,
}
