//! `felosumay check`: the replies in a trace, or a capture, beside the reply rules of the fixture that gave them.

use crate::capture::sound_to_its_end;
use crate::rig::{counters, shown_by};
use crate::told::Told;
use crate::words::MOST_BYTES;
use clap::ArgMatches;
use rdm_capture::{is_capture, read_capture, trace_of};
use rdm_fixture::Fixture;
use rdm_frame::Wire;
use rdm_frame::standard::ROOT_DEVICE;
use rdm_host::fault::Fault;
use rdm_host::fixture::{DEMONSTRATION, FixtureFile, demonstration};
use rdm_host::host::Host;
use rdm_host::source::{Source, print, refuse_clashes, without_mark};
use rdm_judge::{Judged, Rule, Seen, Verdict};
use rdm_params::{Kind, Outcome};
use rdm_responder::{Report, Responder};
use rdm_trace::{JobName, Line, TraceError, lines_of};
use rdm_words::{Known, words_of_lines};

/// For how many results of slow commands the twin has room.
const QUEUE_SIZE: u16 = 1024;

/// Reads the trace that is named, and prints which of its replies break the reply rules.
pub fn run<'a, H: Host>(rt: H, asked: &ArgMatches<'a>) -> Result<(), Fault<'a>> {
    refuse_clashes(asked)?;
    let source = Source::named(asked.get_str(rdm_usage::INPUT));
    let fixture = match FixtureFile::asked_for(rt, asked)? {
        Some(file) => subs_of(file.name(), file.fixture(rt)?, asked)?,
        None => subs_of(DEMONSTRATION, demonstration(), asked)?,
    };
    let told = Told::of(rt.alloc(), &fixture)?;
    let known = told.known();
    let mut twin = twin(rt, fixture)?;
    let mut session = Session {
        known: &known,
        seen: Seen::new(),
        is_whole: asked.get_flag(rdm_usage::ALL),
        count: 0,
        right: 0,
        wrong: 0,
        open: 0,
    };
    let read = source.read(rt, MOST_BYTES)?;
    if !is_capture(read.as_slice()) {
        session.judge_text(rt, source, without_mark(read.as_slice()), &mut twin)?;
        return session.end(rt);
    }
    let reading = read_capture(rt.alloc(), read.as_slice())?;
    let trace = trace_of(rt.alloc(), reading.packets.as_slice())?;
    session.judge_text(rt, source, trace.as_slice(), &mut twin)?;
    sound_to_its_end(source.name(), reading.fault)?;
    session.end(rt)
}

/// A fixture with as many sub-devices as are asked for.
fn subs_of<'a>(
    name: &'a str,
    mut fixture: Fixture,
    asked: &ArgMatches<'a>,
) -> Result<Fixture, Fault<'a>> {
    if let Some(subs) = asked.get_one::<u16>(rdm_usage::SUBS) {
        if asked.contains_id(rdm_usage::FIXTURE) && subs > fixture.profile.subs {
            return Err(Fault::TooManySubs(name, fixture.profile.subs));
        }
        fixture.profile.subs = subs;
    }
    Ok(fixture)
}

/// The twin of a fixture, which shows what its file says that it starts with.
fn twin<'a, H: Host>(rt: H, fixture: Fixture) -> Result<Responder, Fault<'a>> {
    let shown = shown_by(&fixture.profile, &fixture.start);
    let start = fixture.start;
    let Ok(mut twin) = Responder::new(rt.alloc(), fixture.uid, fixture.profile, QUEUE_SIZE) else {
        return Err(Fault::Memory);
    };
    for (kind, count) in counters(&start) {
        place(&mut twin, kind, &count.to_be_bytes());
    }
    for sensor in shown.iter().flatten() {
        place(&mut twin, Kind::SensorValue, sensor);
    }
    Ok(twin)
}

/// Places a value of the root. A file says nothing of what its fixture lacks, so it isn't refused.
fn place(twin: &mut Responder, kind: Kind, bytes: &[u8]) {
    let _ = twin.place(ROOT_DEVICE, kind.pid(), bytes);
}

/// The judging of a trace.
#[derive(Drop)]
struct Session<'k> {
    /// What frames don't say of the fixture.
    known: &'k Known<'k>,
    /// What the replies so far say of it.
    seen: Seen,
    /// Whether the replies that aren't wrong are printed, too.
    is_whole: bool,
    /// How many requests there were.
    count: usize,
    right: usize,
    wrong: usize,
    open: usize,
}

impl Session<'_> {
    /// Judges each reply of a trace.
    fn judge_text<'a, H: Host>(
        &mut self,
        rt: H,
        source: Source<'a>,
        trace: &[u8],
        twin: &mut Responder,
    ) -> Result<(), Fault<'a>> {
        let lines = match lines_of(rt.alloc(), trace) {
            Ok(lines) => lines,
            Err(TraceError::OutOfMemory) => return Err(Fault::Memory),
            Err(TraceError::Line(number)) => return Err(Fault::NoTrace(source.name(), number)),
        };
        let lines = lines.as_slice();
        for index in 0..lines.len() {
            self.take(rt, &lines[index..], twin)?;
        }
        Ok(())
    }

    /// Takes the first of these lines. What a trace says of the fixture happens to the twin.
    fn take<'a, H: Host>(
        &mut self,
        rt: H,
        lines: &[Line],
        twin: &mut Responder,
    ) -> Result<(), Fault<'a>> {
        match lines {
            [Line::Send { bytes, fault }, ..] => {
                self.count = self.count.saturating_add(1);
                if let Some(request) = fault.request_heard(bytes) {
                    self.judge_reply(rt, lines, &request, twin)?;
                }
            }
            [Line::Arrive { job, outcome }, ..] => arrive(twin, *job, *outcome),
            // If the queue has no room for its message, the fixture's had.
            [Line::Panel { change, .. }, ..] => {
                let _ = twin.change(*change);
            }
            _ => {}
        }
        Ok(())
    }

    /// Judges the reply to a request that the fixture received, with which these lines begin.
    fn judge_reply<'a, H: Host>(
        &mut self,
        rt: H,
        lines: &[Line],
        request: &Wire,
        twin: &mut Responder,
    ) -> Result<(), Fault<'a>> {
        let reply = match lines {
            [_, Line::Reply(Some(reply)), ..] => Some(reply.as_slice()),
            _ => None,
        };
        let judged = self.seen.judge(twin, request.as_slice(), reply);
        match judged.verdict {
            Verdict::Right => self.right = self.right.saturating_add(1),
            Verdict::Wrong(_) => self.wrong = self.wrong.saturating_add(1),
            Verdict::Open(_) => self.open = self.open.saturating_add(1),
        }
        if self.is_whole || matches!(judged.verdict, Verdict::Wrong(_)) {
            return self.print_judged(rt, lines, &judged);
        }
        Ok(())
    }

    /// Prints what is said of a reply, with the words of both.
    fn print_judged<'a, H: Host>(
        &self,
        rt: H,
        lines: &[Line],
        judged: &Judged,
    ) -> Result<(), Fault<'a>> {
        let count = self.count;
        let head = match judged.verdict {
            Verdict::Right => format!(in rt.alloc(); "{count}: right\n")?,
            Verdict::Wrong(rule) => {
                let section = rule.section();
                format!(in rt.alloc(); "{count}: WRONG: {rule} (E1.20 section {section})\n")?
            }
            Verdict::Open(doubt) => format!(in rt.alloc(); "{count}: open: {doubt}\n")?,
        };
        print(rt, head.as_bytes())?;
        let shown = match lines {
            [_, Line::Reply(_), ..] => lines.get(..2),
            _ => lines.get(..1),
        };
        let words = words_of_lines(rt.alloc(), shown.unwrap_or(lines), self.known)?;
        print(rt, words.as_slice())?;
        self.print_given(rt, judged)
    }

    /// Prints the reply that is due, unless it is the one that came, or one before it says what is due.
    fn print_given<'a, H: Host>(&self, rt: H, judged: &Judged) -> Result<(), Fault<'a>> {
        match judged.verdict {
            Verdict::Right | Verdict::Wrong(Rule::Muted | Rule::LastMessage | Rule::Count) => {
                return Ok(());
            }
            _ => {}
        }
        print(rt, b"expected:\n")?;
        let given = Line::Reply(judged.given.as_ref().map(|wire| wire.copy()));
        let words = words_of_lines(rt.alloc(), &[given], self.known)?;
        print(rt, words.as_slice())
    }

    /// Prints how many replies were right, wrong and open.
    fn end<'a, H: Host>(&self, rt: H) -> Result<(), Fault<'a>> {
        let Session {
            right,
            wrong,
            open,
            ..
        } = self;
        let text = format!(in rt.alloc(); "{right} right, {wrong} wrong, {open} open\n")?;
        print(rt, text.as_bytes())?;
        match self.wrong {
            0 => Ok(()),
            wrong => Err(Fault::Wrong(wrong)),
        }
    }
}

/// The report of a job arrives at the twin, if it has that job.
fn arrive(twin: &mut Responder, name: JobName, outcome: Outcome) {
    if name.worker > 1 {
        return;
    }
    if let Some(job) = twin.oldest(name.worker) {
        let _ = twin.arrive(Report { job, outcome });
    }
}
