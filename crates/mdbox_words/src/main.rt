//! The program `mdbox`, run with four words on a folder without a store: it prepares messages in threads, says that there is no store, prints nothing, and ends with status 3.
#![tactic(auto)]

use mdbox_start::start;
use std::process::ExitCode;

fn main(rt: HostRuntime) -> ExitCode {
    start(&rt, rt)
}
