//! All devices of a line are polled in turn.

use rdm_collector::{Port, Uid, Want};
use rdm_console::{Fetched, Mailbox};
use rdm_host::fault::Fault;
use rdm_host::host::Host;
use rdm_host::line_fault::{LineFault, Reason};
use rdm_line_talk::{CONSOLE, Console};
use std::io::Write;
use std::thread;
use std::time::Duration;

/// How many milliseconds there are between two rounds in which nothing came.
const PAUSE: u64 = 200;

/// A device that is watched.
#[derive(Drop)]
struct Watched {
    mailbox: Mailbox,
    state: State,
}

/// How a watched device answers polls.
#[derive(Clone, Copy, PartialEq, Eq)]
enum State {
    /// It does.
    Answers,
    /// It doesn't any more.
    Silent,
    /// It rejects them, for the reason with this code.
    Refuses(u16),
    /// It has no queue, and isn't polled.
    NoQueue,
}

/// Finds all devices, polls them in turn, and tells each message as it comes. It doesn't end by itself.
pub fn watch<'a, H: Host, P: Port, F: Write>(
    console: &mut Console<'a, H, P, F>,
) -> Result<(), Fault<'a>> {
    let found = console.found()?;
    let mut watched = Vec::with_capacity(console.teller.rt().alloc(), found.len())?;
    begin(console, found.as_slice(), &mut watched)?;
    watch_on(console, watched.as_mut_slice())
}

/// Takes these devices among those that are watched, and tells of each.
fn begin<'a, H: Host, P: Port, F: Write>(
    console: &mut Console<'a, H, P, F>,
    uids: &[Uid],
    watched: &mut Vec<Watched>,
) -> Result<(), Fault<'a>> {
    let alloc = console.teller.rt().alloc();
    for uid in uids {
        let line = format!(in alloc; "watching {uid}\n")?;
        console.teller.tell(line.as_bytes())?;
        watched.push(Watched {
            mailbox: Mailbox::new(alloc, CONSOLE, *uid, Want::Advisory),
            state: State::Answers,
        })?;
    }
    Ok(())
}

/// Polls all of these, round after round.
fn watch_on<'a, H: Host, P: Port, F: Write>(
    console: &mut Console<'a, H, P, F>,
    watched: &mut [Watched],
) -> Result<(), Fault<'a>> {
    for _round in 0..u64::MAX {
        if !watch_all(console, watched)? {
            thread::sleep(&console.teller.rt(), Duration::from_millis(PAUSE));
        }
    }
    Ok(())
}

/// Polls all of these, and says whether something came.
fn watch_all<'a, H: Host, P: Port, F: Write>(
    console: &mut Console<'a, H, P, F>,
    watched: &mut [Watched],
) -> Result<bool, Fault<'a>> {
    let mut has_come = false;
    for index in 0..watched.len() {
        if let Some(one) = watched.get_mut(index) {
            has_come |= watch_one(console, one)?;
        }
    }
    Ok(has_come)
}

/// Polls one, and says whether something came. If it answers in another way than before, that is told.
fn watch_one<'a, H: Host, P: Port, F: Write>(
    console: &mut Console<'a, H, P, F>,
    watched: &mut Watched,
) -> Result<bool, Fault<'a>> {
    if watched.state == State::NoQueue {
        return Ok(false);
    }
    let fetched = console.fetch(&mut watched.mailbox)?;
    if fetched == Fetched::Endless {
        return Err(Fault::Line(LineFault::Endless(watched.mailbox.uid())));
    }
    let state = state_after(fetched);
    if state != watched.state {
        tell_state(console, watched.mailbox.uid(), state)?;
        watched.state = state;
    }
    Ok(matches!(fetched, Fetched::Message | Fetched::Repeat))
}

/// Tells how a device answers polls.
fn tell_state<'a, H: Host, P: Port, F: Write>(
    console: &mut Console<'a, H, P, F>,
    uid: Uid,
    state: State,
) -> Result<(), Fault<'a>> {
    match state {
        State::Answers => tell_of(console, uid, "answers again"),
        State::Silent => tell_of(console, uid, "no longer answers"),
        State::NoQueue => tell_of(console, uid, "has no QUEUED_MESSAGE, and isn't polled"),
        State::Refuses(code) => {
            let (alloc, reason) = (console.teller.rt().alloc(), Reason(code));
            let words = format!(in alloc; "rejects QUEUED_MESSAGE: {reason}")?;
            tell_of(console, uid, words.as_str())
        }
    }
}

/// Tells this of a device.
fn tell_of<'a, H: Host, P: Port, F: Write>(
    console: &mut Console<'a, H, P, F>,
    uid: Uid,
    words: &str,
) -> Result<(), Fault<'a>> {
    let line = format!(in console.teller.rt().alloc(); "{uid} {words}\n")?;
    console.teller.tell(line.as_bytes())
}

/// How a device answers polls of which this came.
fn state_after(fetched: Fetched) -> State {
    match fetched {
        Fetched::Message | Fetched::Repeat | Fetched::Nothing | Fetched::NotYet { .. } =>
            State::Answers,
        Fetched::NoQueue => State::NoQueue,
        Fetched::Refused { reason } => State::Refuses(reason),
        Fetched::Silent | Fetched::Endless => State::Silent,
    }
}
