//! A script is played on a real device.

use crate::refusing::refuse_clashes;
use clap::ArgMatches;
use rdm_bus::Fault as BusFault;
use rdm_collector::{
    Action, Command, DeviceCollector, DeviceHeard, Heard, MOST_DATA, Port, Response, Uid, Wire,
    is_reserved, read_reply,
};
use rdm_crew::{CrewStep, RunError};
use rdm_expect::Expectation;
use rdm_frame::standard::DISC_MUTE;
use rdm_host::fault::Fault;
use rdm_host::host::Host;
use rdm_host::line_fault::LineFault;
use rdm_host::source::{Source, without_mark};
use rdm_line_talk::{CONSOLE, Console, Printed, uid_in};
use rdm_results::{Results, sheet_in};
use rdm_script::{Dialect, Finds, MOST_BYTES, Script, Spelling, parse_as};
use rdm_trace::Line;
use std::io::Write;

/// A script for a device.
#[derive(Drop)]
pub struct Play<'a> {
    pub(crate) uid: Uid,
    /// Who sends.
    console: Uid,
    /// By what name messages tell of the script.
    pub(crate) name: &'a str,
    script: Script,
    /// What is expected of it.
    pub(crate) expectations: Vec<Expectation>,
    /// The file for what came of that, if one is asked for.
    results: Option<&'a str>,
    /// As what its trace is printed.
    printed: Printed,
}

impl<'a> Play<'a> {
    /// The script that `words` ask for, those behind `play` in the command line `asked`. One is refused that isn't valid, that says what
    /// can't be sent, or that would be written over.
    pub fn asked_for<H: Host>(
        rt: H,
        asked: &ArgMatches<'a>,
        words: &ArgMatches<'a>,
    ) -> Result<Play<'a>, Fault<'a>> {
        refuse_clashes(asked, words)?;
        let uid = device_in(words)?;
        let console = console_in(words, uid)?;
        let source = Source::named(words.get_str(rdm_usage::INPUT));
        let bytes = source.read(rt, MOST_BYTES as u64)?;
        let text = without_mark(bytes.as_slice());
        Ok(Play {
            results: words.get_str(rdm_usage::JUNIT),
            printed: printed(words, uid),
            ..Play::of(rt, uid, console, source.name(), text)?
        })
    }

    /// The one for this device that a text is, of which nothing is printed.
    pub(crate) fn of<H: Host>(
        rt: H,
        uid: Uid,
        console: Uid,
        name: &'a str,
        text: &[u8],
    ) -> Result<Play<'a>, Fault<'a>> {
        let sheet = sheet_in(rt.alloc(), name, text)?;
        Ok(Play {
            uid,
            console,
            name,
            script: script_in(rt, name, uid, sheet.script.as_slice())?,
            expectations: sheet.expectations,
            results: None,
            printed: Printed::Nothing,
        })
    }
}

/// The script for this device that a text is. One is refused that isn't valid, or says what can't be sent.
fn script_in<'a, H: Host>(
    rt: H,
    name: &'a str,
    uid: Uid,
    text: &[u8],
) -> Result<Script, Fault<'a>> {
    let dialect = Dialect::of(uid, Spelling::Friendly);
    let script = match parse_as(rt.alloc(), &dialect, text) {
        Ok(script) => script,
        Err(error) => return Err(Fault::script(name, &dialect, text, error)),
    };
    match stop_of(&script) {
        Some((line, error)) => Err(Fault::Stopped(name, line, error)),
        None => Ok(script),
    }
}

/// The UID that sends: the console's, unless another one is asked for. That is one of a single device, and not of the one that is tested.
pub(crate) fn console_in<'a>(asked: &ArgMatches<'a>, uid: Uid) -> Result<Uid, Fault<'a>> {
    let Some(word) = asked.get_str(rdm_usage::FROM) else {
        return Ok(CONSOLE);
    };
    let console = uid_in(word)?;
    if console.is_broadcast() || console == uid {
        return Err(Fault::Line(LineFault::ConsolesUid(console)));
    }
    Ok(console)
}

/// The UID that is named, which is that of one device.
pub fn device_in<'a>(asked: &ArgMatches<'a>) -> Result<Uid, Fault<'a>> {
    let uid = uid_in(asked.get_str(rdm_usage::UID).unwrap_or(""))?;
    if uid.is_broadcast() {
        return Err(Fault::Line(LineFault::Several(uid)));
    }
    Ok(uid)
}

/// As what the trace of a script for this device is to be printed. What came of expectations may be printed in its place.
fn printed(asked: &ArgMatches<'_>, uid: Uid) -> Printed {
    if asked.get_str(rdm_usage::JUNIT) == Some("-") {
        Printed::Nothing
    } else if asked.get_flag(rdm_usage::WORDS) {
        Printed::Words(uid)
    } else {
        Printed::Trace
    }
}

/// The first step that can't be sent: its line, and why not.
fn stop_of(script: &Script) -> Option<(Option<usize>, RunError)> {
    for (index, step) in script.steps.iter().enumerate() {
        if let CrewStep::Ask(command, _fault) = step {
            let line = script.lines.get(index).copied();
            if is_reserved(command.pid) {
                return Some((line, RunError::Reserved));
            }
            if command.load.as_slice().len() > MOST_DATA {
                return Some((line, RunError::TooLong));
            }
        }
    }
    None
}

/// A script that is being played.
#[derive(Drop)]
struct Playing {
    uid: Uid,
    collector: DeviceCollector,
    /// Whether it is told who is found.
    finds: Finds,
    /// The times that the device has estimated since the last settle, one behind the other, in tenths of a second.
    tenths: u16,
}

impl Playing {
    /// Whether it is told who answers this command that it is found.
    fn tells_find(&self, command: &Command) -> bool {
        match self.finds {
            Finds::Told => is_mute(command),
            Finds::Untold => false,
        }
    }
}

/// Plays a script, and prints its trace, or its words. Then it is told what came of what is expected.
pub fn play_through<'a, H: Host, P: Port, F: Write>(
    console: &mut Console<'a, H, P, F>,
    play: &Play<'a>,
) -> Result<(), Fault<'a>> {
    console.port.log().print_as(play.printed);
    if !play.expectations.is_empty() {
        console.port.log().judge();
    }
    play_script(console, play)?;
    judge_all(console, play)
}

/// Plays a script. Its commands and polls are sent, once each, and what goes wrong with them does. A settle waits for as long as the device
/// has estimated for all commands since the last one. What else happens in a script, happens in the device by itself.
pub(crate) fn play_script<'a, H: Host, P: Port, F: Write>(
    console: &mut Console<'a, H, P, F>,
    play: &Play<'a>,
) -> Result<(), Fault<'a>> {
    let script = &play.script;
    let alloc = console.teller.rt().alloc();
    let mut playing = Playing {
        uid: play.uid,
        collector: DeviceCollector::new(alloc, play.console, play.uid, script.setup.want),
        finds: script.finds,
        tenths: 0,
    };
    play_all(console, &mut playing, script)
}

/// Tells what came of what is expected of a script, and writes it to the file that is asked for. The report is told where the trace is,
/// unless the results are printed there.
fn judge_all<'a, H: Host, P: Port, F: Write>(
    console: &mut Console<'a, H, P, F>,
    play: &Play<'a>,
) -> Result<(), Fault<'a>> {
    let teller = console.teller;
    let lines = console.port.log().judged();
    let results = Results::of(
        teller.rt(),
        play.results,
        play.uid,
        play.name,
        &play.expectations,
        lines,
    )?;
    let report = results.report.as_bytes();
    if play.results == Some("-") {
        teller.on_errors().tell(report)?;
    } else {
        teller.tell(report)?;
    }
    results.end()
}

/// Plays all steps of a script, and tells what was collected.
fn play_all<'a, H: Host, P: Port, F: Write>(
    console: &mut Console<'a, H, P, F>,
    playing: &mut Playing,
    script: &Script,
) -> Result<(), Fault<'a>> {
    for step in &script.steps {
        play_step(console, playing, step)?;
    }
    for item in playing.collector.recorded() {
        console.port.keep(Line::Message(item.message.copy()))?;
    }
    Ok(console.port.keep(Line::End)?)
}

/// Plays a step.
fn play_step<'a, H: Host, P: Port, F: Write>(
    console: &mut Console<'a, H, P, F>,
    playing: &mut Playing,
    step: &CrewStep,
) -> Result<(), Fault<'a>> {
    match step {
        CrewStep::Ask(command, fault) => play_command(console, playing, command, *fault),
        CrewStep::Collect(fault) => {
            let request = playing.collector.poll()?;
            carry(console, playing, &request, *fault)?;
            Ok(())
        }
        CrewStep::Settle(_empties) => {
            console.teller.wait(playing.uid, playing.tenths);
            playing.tenths = 0;
            Ok(())
        }
        CrewStep::Draw | CrewStep::Panel(_) => Ok(()),
    }
}

/// Sends a command, of which this goes wrong.
fn play_command<'a, H: Host, P: Port, F: Write>(
    console: &mut Console<'a, H, P, F>,
    playing: &mut Playing,
    command: &Command,
    fault: BusFault,
) -> Result<(), Fault<'a>> {
    let request = playing.collector.ask(command)?;
    match carry(console, playing, &request, fault)? {
        Some(Response::AckTimer { tenths }) => {
            playing.tenths = playing.tenths.saturating_add(tenths);
            Ok(())
        }
        Some(Response::Ack) if playing.tells_find(command) => {
            Ok(console.port.keep(Line::Found(command.dst))?)
        }
        _ => Ok(()),
    }
}

/// Sends a request, of which this goes wrong, keeps what it is taken for, and gives the response, if it is heard as one.
fn carry<'a, H: Host, P: Port, F: Write>(
    console: &mut Console<'a, H, P, F>,
    playing: &mut Playing,
    request: &Wire,
    fault: BusFault,
) -> Result<Option<Response>, Fault<'a>> {
    let heard = console.port.carry(request, fault)?;
    let taken = taken_for(&mut playing.collector, &heard);
    let Some(bytes) = heard else {
        console.port.keep(Line::Heard(None))?;
        return Ok(None);
    };
    console.port.keep(Line::Heard(Some(told_as(taken))))?;
    if taken != DeviceHeard::Reply {
        return Ok(None);
    }
    match read_reply(bytes.as_slice()) {
        Some(reply) => Ok(Some(reply.response)),
        None => Ok(None),
    }
}

/// What a collector takes what came for. Its transaction is over then.
fn taken_for(collector: &mut DeviceCollector, heard: &Option<Wire>) -> DeviceHeard {
    let taken = match heard {
        Some(bytes) => collector.hear(bytes.as_slice()),
        None => DeviceHeard::Ignored,
    };
    collector.over();
    taken
}

/// As what the trace tells that a reply was heard. What answers a poll and is no message is a reply.
fn told_as(taken: DeviceHeard) -> Heard {
    match taken {
        DeviceHeard::Message | DeviceHeard::Part => Heard::Message,
        DeviceHeard::Reply
        | DeviceHeard::Unsupported
        | DeviceHeard::Refused { .. }
        | DeviceHeard::NotYet { .. } => Heard::Reply,
        DeviceHeard::Ignored => Heard::Ignored,
    }
}

/// Whether a command is DISC_MUTE.
fn is_mute(command: &Command) -> bool {
    command.action == Action::Disc && command.pid == DISC_MUTE
}
