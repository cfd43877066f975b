//! The program `mdbox`.
#![tactic(auto)]

use mdbox_start::start;
use std::process::ExitCode;

fn main(rt: HostRuntime) -> ExitCode {
    start(&rt, rt)
}
