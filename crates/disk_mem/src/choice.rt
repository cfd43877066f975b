// What a crash leaves.

/// What a crash leaves of the calls since the last syncs.
#[derive(Clone, Copy, Debug, PartialEq, Eq)]
pub enum Choice {
    /// Nothing: what the last syncs left.
    Old,
    /// Everything.
    New,
    /// Each octet that was written since the last sync holds this value. Lengths and names are new.
    Torn(u8),
}
