//! What threads cost, and what a request to one of many devices on a line takes, and to a responder alone.
//!
//! Without arguments it is shown for a few items, commands and requests what comes of them. `lane` and `crew` with a number of rounds
//! print times, and so does `slow` with a number of jobs: two threads hand items to a third, and two workers do the jobs of slow commands.
//! `alone` with a number of rounds sends so many requests to a responder; `line` with a number of devices and one of rounds sends so many
//! to each device of a line, whose UIDs are counted up; with `gaps` in its place there are others between these, and with `scattered`
//! they have no order.
#![tactic(auto)]

mod asked;
mod crew;
mod fault;
mod lane;
mod requests;

use asked::{Asked, read_arguments};
use fault::Fault;
use requests::{Uids, alone, on_line};
use std::alloc::{Alloc, Global};
use std::io::Print;
use std::process::ExitCode;
use std::sync::Wait;
use std::thread::Threads;

/// Status 2 says that the arguments can't be read, and status 1 that something else failed.
fn main(rt: HostRuntime) -> ExitCode {
    let done = match read_arguments(&rt) {
        Ok(Asked::Show) => show(rt, rt.alloc()),
        Ok(Asked::Lane(rounds)) => lane::time(rt, rt.alloc(), rounds).map_err(Fault::Lane),
        Ok(Asked::Crew(rounds)) => crew::time(rt, rt.alloc(), rounds).map_err(Fault::Crew),
        Ok(Asked::Slow(jobs)) => crew::time_slow(rt, rt.alloc(), jobs).map_err(Fault::Crew),
        Ok(Asked::Alone(rounds)) => tell(rt, "alone", alone(rt.alloc(), rounds)),
        Ok(Asked::Line(uids, devices, rounds)) => {
            tell(rt, "line", on_line(rt.alloc(), devices, uids, rounds))
        }
        Err(fault) => Err(fault),
    };
    match done {
        Ok(()) => ExitCode::SUCCESS,
        Err(fault) => {
            let _ = eprintln!(rt; "error: {fault}");
            fault.status()
        }
    }
}

/// Prints what a few items, commands and requests come to.
fn show<R>(rt: R, alloc: Global) -> Result<(), Fault>
where
    R: Print + Threads + Wait + Copy + Send + 'static,
{
    lane::show(rt, alloc)?;
    crew::show(rt, alloc)?;
    show_requests(rt, alloc)
}

/// Prints what a few requests come to.
fn show_requests<R: Print + Copy>(rt: R, alloc: Global) -> Result<(), Fault> {
    tell(rt, "alone, 3 requests", alone(alloc, 3))?;
    tell(
        rt,
        "one on a line, 3 requests",
        on_line(alloc, 1, Uids::CountedUp, 3),
    )?;
    tell(
        rt,
        "two on a line, 3 requests each",
        on_line(alloc, 2, Uids::WithGaps, 3),
    )
}

/// Prints how many bytes of replies there were.
fn tell<R: Print + Copy>(rt: R, name: &str, bytes: Result<u64, Fault>) -> Result<(), Fault> {
    let bytes = bytes?;
    println!(rt; "{name}: {bytes} bytes of replies")?;
    Ok(())
}
