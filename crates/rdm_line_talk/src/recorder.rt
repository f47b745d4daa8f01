//! A port of which a trace is kept.

ghost use Rattle.std.specs.Prelude.{◌≡◌, IfErr};
ghost use Rattle.rdm_collector.specs.declared.port.PortError.TheVariants.{Write as WriteFault};
ghost use Rattle.rdm_line_talk.specs.Recorders.{FailsKept};

use crate::log::{Log, NotKept};
use rdm_bus::Fault;
use rdm_collector::{Heard, Port, PortError, Wire, read_reply};
use rdm_frame::decode_view;
use rdm_frame::standard::GET_COMMAND;
use rdm_host::host::Speaker;
use rdm_params::Kind;
use rdm_trace::Line;
use std::io::Write;

/// A port, and the trace of what is sent and heard through it.
#[derive(Drop)]
pub struct Recorder<'a, H, P, F> {
    port: P,
    log: Log<'a, H, F>,
}

impl<'a, H: Speaker, P: Port, F: Write> Recorder<'a, H, P, F> {
    /// This port, of which this trace is kept.
    pub fn new(port: P, log: Log<'a, H, F>) -> Recorder<'a, H, P, F> {
        Recorder { port, log }
    }

    /// The port and the trace.
    pub fn into_parts(self) -> (P, Log<'a, H, F>) {
        let Recorder { port, log } = self;
        (port, log)
    }

    /// The trace.
    pub fn log(&mut self) -> &mut Log<'a, H, F> {
        &mut self.log
    }

    /// Sends a request, of which this goes wrong, and says what is heard. All of it is kept, but not what it is taken for.
    pub fn carry(&mut self, request: &Wire, fault: Fault) -> Result<Option<Wire>, PortError> {
        keep_sent(&mut self.log, request, fault)?;
        let reply = match fault.request_heard(request) {
            Some(bytes) => self.port.exchange(&bytes)?,
            None => None,
        };
        note_time(&mut self.log)?;
        keep(&mut self.log, Line::Reply(copy_of(&reply)))?;
        match &reply {
            Some(bytes) => Ok(fault.reply_heard(bytes)),
            None => Ok(None),
        }
    }

    /// Keeps a remark in the file of the trace, if there is one.
    pub fn keep_remark(&mut self, words: &str) -> Result<(), PortError> {
        match self.log.keep_remark(words) {
            Ok(()) => Ok(()),
            Err(NotKept) => Err(PortError::Write),
        }
    }

    /// Keeps a line of the trace.
    pub fn keep(&mut self, line: Line) -> Result<(), PortError> {
        keep(&mut self.log, line)
    }
}

impl<H: Speaker, P: Port, F: Write> Port for Recorder<'_, H, P, F> {
    // What is heard is what the port says.
    ghost hears = { λ before request heard after. P.hears before.port request heard after.port };

    // It fails as the port does, or since the trace isn't kept.
    ghost fails = { λ before request error after. FailsKept P.hears P.fails before.port request error after.port };

    fn exchange(&mut self, request: &Wire) -> Result<Option<Wire>, PortError> {
        match keep_sent(&mut self.log, request, Fault::None) {
            Ok(()) => match self.port.exchange(request) {
                Ok(heard) => match keep_heard(&mut self.log, request, &heard) {
                    Ok(()) => Ok(heard),
                    Err(error) => Err(error),
                },
                Err(error) => Err(error),
            },
            Err(error) => Err(error),
        }
    }
}

/// Keeps what was heard of a request, and what it is taken for.
fn keep_heard<H: Speaker, F: Write>(
    log: &mut Log<'_, H, F>,
    request: &Wire,
    heard: &Option<Wire>,
) -> Result<(), PortError>
    ensures { IfErr result (λ error. error ≡ WriteFault) }
{
    match keep(log, Line::Reply(copy_of(heard))) {
        Ok(()) => keep(log, Line::Heard(taken_for(request, heard))),
        Err(error) => Err(error),
    }
}

/// Keeps a request, and what goes wrong with it.
fn keep_sent<H: Speaker, F: Write>(
    log: &mut Log<'_, H, F>,
    request: &Wire,
    fault: Fault,
) -> Result<(), PortError>
    ensures { IfErr result (λ error. error ≡ WriteFault) }
{
    match log.keep_time() {
        Ok(()) => keep(
            log,
            Line::Send {
                bytes: request.copy(),
                fault,
            },
        ),
        Err(NotKept) => Err(PortError::Write),
    }
}

/// Keeps the time of a reply for those who judge it.
fn note_time<H: Speaker, F: Write>(log: &mut Log<'_, H, F>) -> Result<(), PortError>
    ensures { IfErr result (λ error. error ≡ WriteFault) }
{
    match log.note_time() {
        Ok(()) => Ok(()),
        Err(NotKept) => Err(PortError::Write),
    }
}

/// Keeps a line.
fn keep<H: Speaker, F: Write>(log: &mut Log<'_, H, F>, line: Line) -> Result<(), PortError>
    ensures { IfErr result (λ error. error ≡ WriteFault) }
{
    match log.keep(line) {
        Ok(()) => Ok(()),
        Err(NotKept) => Err(PortError::Write),
    }
}

/// What a reply is taken for, of which an interface says that it answers: a message, if it answers a poll by something else than
/// the response to QUEUED_MESSAGE itself (E1.20 section 10.3.1). The answer to DISC_UNIQUE_BRANCH is no frame, and to a broadcast there is no
/// valid one (section 6.2.4).
fn taken_for(request: &Wire, heard: &Option<Wire>) -> Option<Heard> {
    match heard {
        Some(bytes) => Some(judged(request, bytes)),
        None => None,
    }
}

/// What a reply that was heard is taken for.
fn judged(request: &Wire, bytes: &Wire) -> Heard {
    match read_reply(bytes.as_slice()) {
        Some(_) if is_broadcast(request) => Heard::Ignored,
        Some(reply) if is_poll(request) && reply.pid != Kind::QueuedMessage.pid() => Heard::Message,
        Some(_) => Heard::Reply,
        None => Heard::Ignored,
    }
}

/// Whether a request is for several devices.
fn is_broadcast(request: &Wire) -> bool {
    match decode_view(request.as_slice()) {
        Ok(frame) => frame.dst.is_broadcast(),
        Err(_) => false,
    }
}

/// Whether a request fetches a message.
fn is_poll(request: &Wire) -> bool {
    match decode_view(request.as_slice()) {
        Ok(frame) => frame.class == GET_COMMAND && frame.pid == Kind::QueuedMessage.pid(),
        Err(_) => false,
    }
}

/// A reply, copied.
fn copy_of(reply: &Option<Wire>) -> Option<Wire> {
    match reply {
        Some(bytes) => Some(bytes.copy()),
        None => None,
    }
}
