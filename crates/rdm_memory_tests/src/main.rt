//! What each call does where memory is refused to it. `.ci/memory` plays this program over and over, and each time another
//! request for memory is refused.
//!
//! A line of standard input says what is done: the word of a call, how many blocks of memory are taken and given back
//! before it, and how many after it. By the first number the one request that is refused, always the same, comes to be the
//! first, second, .. of the call. By the last it shows whether the call ended before that request. The word `all` stands for
//! every call.
//!
//! Where the call answers what it should, each time, a line tells whether memory was refused to it. Otherwise the program
//! ends with status 1.
#![tactic(auto)]

mod bus;
mod crew;
mod fault;
mod gate;
mod lanes;
mod making;
mod polling;
mod script;
mod tally;
mod turns;

use fault::Fault;
use std::alloc::{AllocError, Global};
use std::io::{Print, Read};
use std::process::ExitCode;
use std::str;
use std::sync::Wait;
use std::thread::Threads;
use tally::Tally;

/// How many bytes of standard input are read at most.
const LINE: usize = 64;

/// The words of all calls.
const WORDS: [&str; 14] = [
    "devices",
    "outbox",
    "responder",
    "poll",
    "play",
    "lane",
    "put",
    "take",
    "run",
    "run-reports",
    "run-stops",
    "run-gate",
    "parse",
    "script",
];

fn main(rt: HostRuntime) -> ExitCode {
    let mut bytes = [0_u8; LINE];
    let Some((word, before, after)) = order_in(&mut rt.reader(), &mut bytes) else {
        let _ = eprintln!(rt; "error: standard input has no word and two numbers");
        return ExitCode::from(2);
    };
    if take_and_give_back(rt.alloc(), before).is_err() {
        let _ = eprintln!(rt; "error: memory was refused before the call");
        return ExitCode::from(3);
    }
    match tell(rt, rt.alloc(), word, after) {
        Ok(()) => ExitCode::SUCCESS,
        Err(fault) => {
            let _ = eprintln!(rt; "error: {word}: {fault}");
            ExitCode::FAILURE
        }
    }
}

/// The word and the two numbers that a reader's first bytes say.
fn order_in<'a, R: Read>(reader: &mut R, bytes: &'a mut [u8]) -> Option<(&'a str, u32, u32)> {
    let count = reader.read(bytes).ok()?;
    let line = str::from_utf8(bytes.get(..count)?).ok()?;
    let (word, numbers) = line.trim().split_once(' ')?;
    let (before, after) = numbers.split_once(' ')?;
    Some((
        word,
        before.parse::<u32>().ok()?,
        after.parse::<u32>().ok()?,
    ))
}

/// Takes so many blocks of memory, one after another, and gives each back.
fn take_and_give_back(alloc: Global, blocks: u32) -> Result<(), AllocError> {
    for _ in 0..blocks {
        let block = Box::new(alloc, 0_u8)?;
        drop(block);
    }
    Ok(())
}

/// Makes the call of a word, or all calls, and tells of each whether memory was refused to it. So many blocks are taken and
/// given back after it: where one of them is refused, nothing was refused before.
fn tell<T>(rt: T, alloc: Global, word: &str, after: u32) -> Result<(), Fault>
where
    T: Print + Threads + Wait + Copy + Send + 'static,
{
    for known in WORDS {
        if word == known || word == "all" {
            tell_one(rt, alloc, known, after)?;
        }
    }
    Ok(())
}

/// The same of one call.
fn tell_one<T>(rt: T, alloc: Global, word: &str, after: u32) -> Result<(), Fault>
where
    T: Print + Threads + Wait + Copy + Send + 'static,
{
    let told = call(rt, alloc, word)?;
    match take_and_give_back(alloc, after) {
        Ok(()) => println!(rt; "{word}: {}", told.words())?,
        Err(_) => println!(rt; "{word}: nothing was refused")?,
    }
    Ok(())
}

/// Makes the call of a word, as often as memory is refused to it.
fn call<T>(rt: T, alloc: Global, word: &str) -> Result<Tally, Fault>
where
    T: Threads + Wait + Copy + Send + 'static,
{
    match word {
        "devices" => making::devices(alloc),
        "outbox" => making::outbox(alloc),
        "responder" => making::responder(alloc),
        "poll" => polling::poll(alloc),
        "play" => bus::play(alloc),
        "lane" => lanes::lane_of_one(alloc),
        "put" => turns::put(&rt, alloc),
        "take" => turns::take(&rt, alloc),
        "run" => crew::collects(rt, alloc),
        "run-reports" => crew::reports(rt, alloc),
        "run-stops" => crew::stops(rt, alloc),
        "run-gate" => crew::meets(rt, alloc),
        "parse" => script::parses(alloc),
        "script" => script::plays(rt, alloc),
        _ => Err(Fault::Wrong("there is no such call")),
    }
}
