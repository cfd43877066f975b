// Gates: the octet before each record and behind the last.

/// The value of a gate that a record follows.
pub const OPEN: u8 = 1;

/// The value of a gate that no record follows.
pub const CLOSED: u8 = 0;
