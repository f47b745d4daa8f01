//! What the arguments ask for.

use crate::fault::Fault;
use crate::requests::Uids;
use std::alloc::Alloc;
use std::env;
use std::env::Env;

/// What the arguments ask for.
pub(crate) enum Asked {
    /// What a few items, commands and requests come to.
    Show,
    /// The times of so many rounds of items.
    Lane(u32),
    /// The times of so many rounds of commands.
    Crew(u32),
    /// The time of so many slow jobs.
    Slow(u32),
    /// So many requests to a responder alone.
    Alone(u32),
    /// Requests to each of so many devices with these UIDs, in so many rounds.
    Line(Uids, u16, u32),
}

/// Reads the arguments.
pub(crate) fn read_arguments<R: Env + Alloc>(rt: &R) -> Result<Asked, Fault> {
    let mut words = env::args(rt)?.skip(1);
    let (first, second, third) = (words.next(), words.next(), words.next());
    let Some(word) = first else {
        return Ok(Asked::Show);
    };
    let Some(number) = second else {
        return Err(Fault::Usage);
    };
    match third {
        None => read_rounds(word.as_str(), &number),
        Some(rounds) => {
            let uids = read_uids(word.as_str())?;
            Ok(Asked::Line(uids, read_count(&number)?, read_number(&rounds)?))
        }
    }
}

/// Reads what is done in so many rounds.
fn read_rounds(word: &str, number: &str) -> Result<Asked, Fault> {
    let rounds = read_number(number)?;
    match word {
        "lane" => Ok(Asked::Lane(rounds)),
        "crew" => Ok(Asked::Crew(rounds)),
        "slow" => Ok(Asked::Slow(rounds)),
        "alone" => Ok(Asked::Alone(rounds)),
        _ => Err(Fault::Usage),
    }
}

/// Reads which UIDs the devices have.
fn read_uids(word: &str) -> Result<Uids, Fault> {
    match word {
        "line" => Ok(Uids::CountedUp),
        "gaps" => Ok(Uids::WithGaps),
        "scattered" => Ok(Uids::Scattered),
        _ => Err(Fault::Usage),
    }
}

/// Reads a number of devices.
fn read_count(word: &str) -> Result<u16, Fault> {
    match word.parse::<u16>() {
        Ok(count) => Ok(count),
        Err(_) => Err(Fault::Usage),
    }
}

/// Reads a number of rounds or of jobs.
fn read_number(word: &str) -> Result<u32, Fault> {
    match word.parse::<u32>() {
        Ok(number) => Ok(number),
        Err(_) => Err(Fault::Usage),
    }
}
