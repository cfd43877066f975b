// Entries of logs as octets, spelled by hand from docs/formats.md.

/// Of the root log: the map log has generation 1.
pub const NAMES_MAP_LOG: &[u8] = b"M\0\0\0\x01";

/// Of the map log: mailbox 1 is INBOX, with a log of generation 1.
pub const MAKES_INBOX: &[u8] = b"B\0\0\0\x01\0\0\0\x01\x05INBOX";

/// Of the map log: record 1 is 89 octets of storage file 1 from 16 on, with count 1 and no instances.
pub const STORES_FIRST: &[u8] =
    b"S\0\0\x01\0\0\0\x01\0\0\0\x01\0\0\0\x10\0\0\0\x59\0\x11\x22\x33\x44\x55\x66\x77\0\0\0\x01\0\0\0\x10\0\0";

/// Of the map log: record 2 is 94 octets of storage file 1 from 105 on, with count 1 and no instances.
pub const STORES_SECOND: &[u8] =
    b"S\0\0\x01\0\0\0\x02\0\0\0\x01\0\0\0\x69\0\0\0\x5e\0\x11\x22\x33\x44\x55\x66\x77\0\0\0\x01\0\0\0\x69\0\0";

/// Of the map log: the count of record 1 rises by 1.
pub const RAISES_FIRST: &[u8] = b"U\0\0\0\x01";

/// Of the log of a mailbox: message 1 is that of record 1.
pub const ADDS_FIRST: &[u8] =
    b"A\0\0\0\x01\0\0\0\0\0\x65\0\0\0\0\0\0\0\0\0\0\x01\0\x11\x22\x33\x44\x55\x66\x77\0\0\0\x01\0\0\0\x10\0";

/// Of the log of a mailbox: message 2, of 5 octets, is that of record 2.
pub const ADDS_SECOND: &[u8] =
    b"A\0\0\0\x02\0\0\0\0\0\x65\0\0\x01\0\0\0\x05\0\0\0\x02\0\x11\x22\x33\x44\x55\x66\x77\0\0\0\x01\0\0\0\x69\0";

/// Of the log of a mailbox: message 1 is flagged with bit 8.
pub const FLAGS_FIRST: &[u8] = b"F\0\0\0\x01\x08";

/// Of the log of a mailbox: message 3 is that of record 1, flagged with bit 8.
pub const ADDS_COPY: &[u8] =
    b"A\0\0\0\x03\x08\0\0\0\0\x65\0\0\0\0\0\0\0\0\0\0\x01\0\x11\x22\x33\x44\x55\x66\x77\0\0\0\x01\0\0\0\x10\0";
