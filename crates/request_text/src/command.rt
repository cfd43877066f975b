// The commands of the program.
use mdbox_base::{Flags, Name, StoreId, Uid, Words};

/// What the program is asked to do.
#[derive(Drop)]
pub enum Command {
    /// Makes an empty store with this id.
    Init { id: StoreId },
    /// Saves the message that the input is in the mailbox with this name.
    Deliver { name: Name },
    /// Lists the mailbox with this name.
    List { name: Name },
    /// Prints the octets of the message with this UID in the mailbox with this name.
    Fetch { name: Name, uid: Uid },
    /// Sets the flags of the message with this UID in the mailbox with this name.
    Flag { name: Name, uid: Uid, flags: Flags },
    /// Sets the keywords of the message with this UID in the mailbox with this name.
    Keywords { name: Name, uid: Uid, words: Words },
    /// Lists the mailboxes.
    Boxes,
    /// Counts what the store has.
    Counts,
    /// Removes from storage files what no mailbox lists, and the attachments that no message needs.
    Purge,
    /// Makes the counts of the store exact, and counts the damaged messages.
    Resync,
    /// Removes the message with this UID from the mailbox with this name.
    Expunge { name: Name, uid: Uid },
    /// Adds the message with this UID, from the mailbox with this name, to the target.
    Copy { name: Name, uid: Uid, target: Name },
    /// Moves the message with this UID, from the mailbox with this name, to the target.
    Move { name: Name, uid: Uid, target: Name },
    /// Makes an empty mailbox with this name.
    Make { name: Name },
    /// Deletes the mailbox with this name, and removes all its messages.
    Delete { name: Name },
    /// Gives the mailbox with this name the name of the target.
    Rename { name: Name, target: Name },
    /// Does the requests of the script that the input is, on so many lanes.
    Batch { lanes: u32 },
    /// Does requests as they come, and prints each reply before the next is read.
    Serve,
    /// Does so many requests, of the script that the number makes, on so many lanes.
    Exercise { lanes: u32, count: u32, number: u64 },
    /// Makes new logs, with this id, for the storage files that are there.
    Rebuild { id: StoreId },
    /// Prints the messages of a storage file.
    Dump,
    /// Prints the entries of a log.
    LogDump,
    /// Prints what each command does.
    Help,
    /// Prints the version.
    Version,
}

/// What `--help` prints.
pub const HELP: &str = "mdbox WORDS

init ID     makes an empty store in the current folder, with one mailbox, INBOX, and prints OK; ID names
            the store, in 16 lower-case hexadecimal digits
deliver BOX saves the message that it reads from standard input, of at most 67108864 octets, in a mailbox of the
            store, as received now, and prints OK, its UID there and its GUID; or prints NO 10 no mailbox,
            NO 14 mailbox full 1000000, or NO 16 store full 4294967294
list BOX    lists a mailbox of the store in the current folder: prints OK and the number of messages, then a
            line for each: its UID, its flags (the sum of 1 answered, 2 flagged, 4 deleted, 8 seen, 16 draft),
            its size in octets, the time it was received (Unix seconds), its GUID and its keywords; or
            prints NO 10 no mailbox
fetch BOX UID
            prints the octets of the message with this UID and nothing else; or prints NO 10 no mailbox,
            NO 12 no message, NO 18 read fault, or NO 20 damaged with the storage file and the offset of the message
flag BOX UID BITS
            sets the flags of the message with this UID to BITS (0 to 31, a sum as list prints it) and prints OK;
            or prints NO 10 no mailbox or NO 12 no message
keywords BOX UID KEYWORD ..
            gives the message with this UID these keywords, at most 32, and no others, and prints OK; or prints
            NO 10 no mailbox or NO 12 no message; a keyword has 1 to 64 printing octets of ASCII, without blanks and
            ( ) { % * \" \\ ], and capitals differ from small letters; without a keyword the message has none then
boxes       prints OK and the number of mailboxes in the store in the current folder, then a line for each, in the
            order in which they were made: its number, the UID that its next message gets, how many messages it
            lists, the sum of their sizes in octets, and its name
counts      prints OK and four numbers of the store in the current folder: how many messages it has stored, how
            many its mailboxes list, the sum of the counts that it keeps of these (what is above is a leak), and
            how many attachments it keeps apart, each once
purge       copies what is wanted out of storage files in which something isn't, removes these files, and the
            attachments that no message names, and prints OK and three numbers: how many messages, storage files
            and attachments went; or prints NO 16 store full or NO 18 read fault
resync      counts anew how often the mailboxes list each stored message, reads of each its header and what follows
            its body, and prints OK and two numbers: how many counts were wrong and are put right, and how many
            messages are damaged; or prints NO 18 read fault
expunge BOX UID
            removes the message with this UID from the mailbox and prints OK; or prints NO 10 no mailbox or
            NO 12 no message
copy BOX UID TO
            adds the message with this UID to the mailbox TO and prints OK and its UID there; or prints
            NO 10 no mailbox, NO 12 no message, NO 14 mailbox full 1000000, NO 16 store full 4294967294, or
            NO 13 too many copies 65535
move BOX UID TO
            adds the message with this UID to the mailbox TO, removes it from its own, and prints OK and its UID
            there; or prints NO with a number and the cause, as copy does
make BOX    adds an empty mailbox with this name to the store and prints OK; or prints NO 11 exists,
            NO 15 too many mailboxes 1024, or NO 16 store full 4294967294
delete BOX  removes the mailbox with all its messages and prints OK; or prints NO 10 no mailbox or NO 21 inbox
rename BOX TO
            gives the mailbox the name TO, its messages and their UIDs stay, and prints OK; or prints
            NO 10 no mailbox, NO 21 inbox or NO 11 exists
batch LANES reads a script from standard input, of at most 268435456 octets and 100000 requests, does its requests on
            so many lanes (1 to 64) over the store in the current folder, opened once, and prints a line for each, in
            the script's order: its number, the place of its step in the order in which the steps were made or -, and
            what it replies
serve       does the requests of a script as they come on standard input, of lanes 1 to 64, over the store in the current
            folder, opened once, and prints what batch prints of each before it reads the next; ends at the input's end,
            where no request stands, with NO 19 stopped, or after 100000 requests, which it tells with status 0
exercise LANES COUNT NUMBER
            does as batch a script of COUNT requests (1 to 100000) that NUMBER (0 to 18446744073709551615) makes: each
            lane makes a mailbox, x and the lane's number, and then delivers, copies, expunges and flags in it; prints
            how many requests there were and how many were replied OK and NO, how many messages the mailboxes of the
            store list and their octets, and the four numbers of counts, a line for each, such as messages 500
rebuild ID  makes new logs, with the id ID, for the storage files in the current folder, where the logs are lost or
            damaged; prints for each message that it can't take, or part of a file that it can't read, a line
            SKIPPED, the number of the storage file (m.N), the offset there and the reason, and then OK, how many
            mailboxes there are and how many messages, and on standard error each mailbox with its number of
            messages; no storage file and no attachment is changed
dump        reads a storage file (m.N) of mdbox from standard input and prints, for each message,
            MESSAGE, its offset and the size of its body, and then its metadata lines, each after two spaces
logdump     reads a log of mdbox from standard input and prints LOG, its kind (R, M or B), its number, its
            generation and V2 if that is its version, then for each entry the offset of its record and its
            octets in hexadecimal digits, and END with the offset of the last gate
--help      prints this
--version   prints the version

Exit status: 0 done, 1 the reply is NO, 2 unknown command, 3 no store, a store that exists already, storage files
without a store, or a damaged store, 4 the input is refused, 5 out of memory, 6 disk fault, 7 read fault,
8 write fault. A reply may also be NO 17 memory (status 5; not of flag), NO 18 read fault (6; of deliver, fetch,
purge and resync) or NO 19 stopped (6; of what changes the store, if a change of the disk failed)

Example: mdbox init 0011223344556677 && mdbox list INBOX
";

/// What `--version` prints.
pub const VERSION: &str = "mdbox 0.1.0\n";
