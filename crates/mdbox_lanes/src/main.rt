//! Lanes in threads, held back so that their turns come in orders that are known: what the program prints of them, and what is seen of the
//! store afterwards.
#![tactic(auto)]

use lock::one_turn;
use messages::prepare_together;
use orders::{Counted, play_orders};
use rows::{fetch_beside_purge, numbers_of_exercise};
use std::io;
use std::process::ExitCode;
use std::sync::Wait;
use std::thread::Threads;
use wrong::Wrong;

mod lists;
mod lock;
mod messages;
mod orders;
mod pauses;
mod printed;
mod rows;
mod runs;
mod wrong;

fn main(rt: HostRuntime) -> ExitCode {
    match tell(&rt, rt) {
        Ok(()) => ExitCode::SUCCESS,
        Err(_) => ExitCode::FAILURE,
    }
}

/// Prints what each test came to.
fn tell<R: Threads + Wait + Sync>(rt: &R, host: HostRuntime) -> io::Result<()> {
    match numbers_of_exercise(rt, host.alloc()) {
        Ok(text) => println!(host; "{text}")?,
        Err(wrong) => println!(host; "exercise: {wrong}")?,
    }
    match prepare_together(rt, host.alloc()) {
        Ok(()) => println!(host; "messages are prepared in threads")?,
        Err(wrong) => println!(host; "messages prepared in threads: {wrong}")?,
    }
    match one_turn(rt, host.alloc()) {
        Ok(()) => println!(host; "a turn is taken, and its trace comes back")?,
        Err(wrong) => println!(host; "a turn: {wrong}")?,
    }
    match fetch_beside_purge(rt, host) {
        Ok(()) => println!(host; "a fetch goes on beside a purge")?,
        Err(wrong) => println!(host; "a fetch beside a purge: {wrong}")?,
    }
    match play_orders(rt, host) {
        Ok(Counted { orders, outcomes }) => {
            println!(host; "{orders} orders, {outcomes} outcomes, each as lists say")?
        }
        Err((order, wrong)) => println!(host; "order {order}: {wrong}")?,
    }
    Ok(())
}
