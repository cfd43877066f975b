//! The program `mdbox`, run on a storage file that is cut off: it says so, prints nothing, and ends with status 4.
#![tactic(auto)]

use mdbox_start::start;
use std::process::ExitCode;

fn main(rt: HostRuntime) -> ExitCode {
    start(&rt, rt)
}
