// The numbers of the standard streams.
use std::fs::File;
use std::io;

/// Keeps the numbers of standard streams that are closed from files of the store. The system gives the file that is opened next the
/// least number that is free, so with standard output closed a reply would be written over a log. Three folders are opened first: they
/// take the numbers 0, 1 and 2 as far as these are free, and no octet of a folder can be read or written, so that a use of a closed
/// stream fails.
pub fn hold_streams(rt: HostRuntime) -> io::Result<[File; 3]> {
    Ok([
        File::open(&rt, "/")?,
        File::open(&rt, "/")?,
        File::open(&rt, "/")?,
    ])
}
