//! What replies to STATUS_MESSAGES come to.

ghost use Rattle.std.specs.Prelude.{◌≡◌, ◌<◌, ◌+◌, IfOk, OnOk};
ghost use Rattle.rdm_collector.specs.AnyDevice.Items.{type_code};
ghost use Rattle.rdm_console.specs.Belonging.{has_value};
ghost use Rattle.rdm_console.specs.Endings.{is_ack};
ghost use Rattle.rdm_surveyor.specs.Statuses.{counted, counts_of, counts_with, error_of, held, is_again, is_said, is_status, new_tale, noted, says_nothing, says_the_same, taken_by, taken_in, tale_after, tells_status, warning_of};

use rdm_collector::{Reply, read_reply};
use rdm_console::{Response, Severity, Wire};
use rdm_frame::standard::{
    ACK, ACK_OVERFLOW, ACK_TIMER, GET_COMMAND_RESPONSE, NACK_REASON, STATUS_MESSAGES,
};
use rdm_survey::StatusCounts;
use std::alloc::{AllocError, Global};
use std::marker::Model;

/// How many slots an entry of a status message has (E1.20 section 10.3.2).
const ENTRY_SLOTS: usize = 9;

/// What a reply is for a survey.
#[derive(Clone, Copy, Debug, PartialEq, Eq)]
pub(crate) enum Taken {
    /// It tells something, and is handed on.
    Report,
    /// It tells nothing new, and there may be more.
    Repeat,
    /// There is nothing more.
    Over,
}

/// What the replies came to so far.
#[derive(Drop)]
pub(crate) struct Tally {
    /// Whether one was a status message.
    is_telling: bool,
    sum: StatusCounts,
    /// The data of the parts before (section 6.3.2).
    joined: Vec<u8>,
    /// The last reply that was handed on.
    latest: Option<Wire>,
    /// How many requests in a row weren't answered.
    unheard: u8,
}

impl Model for Tally {
    ghost use Rattle.rdm_surveyor.specs.Statuses.{Tale};

    ghost Value = { Tale };

    ghost view = { λ t. record {
      tells = t.is_telling;
      counts = t.sum;
      part = t.joined.items;
      last = t.latest;
      silent = t.unheard;
    } };
}

impl Tally {
    /// Nothing came yet.
    pub(crate) fn new(alloc: Global) -> Tally
        ensures { result ≡ new_tale }
    {
        Tally {
            is_telling: false,
            sum: StatusCounts {
                errors: 0,
                warnings: 0,
            },
            joined: Vec::new(alloc),
            latest: None,
            unheard: 0,
        }
    }

    /// How many errors and warnings were told, if the fixture tells its status.
    pub(crate) fn counts(&self) -> Option<StatusCounts>
        ensures { result ≡ counts_of self.now }
    {
        if self.is_telling {
            Some(self.sum)
        } else {
            None
        }
    }

    /// Whether the last message is to be asked for again.
    pub(crate) fn is_again(&self) -> bool
        ensures { result ≡ is_again self.now }
    {
        self.unheard > 0
    }

    /// Notes that a request wasn't answered. Gives how many in a row weren't.
    pub(crate) fn miss(&mut self) -> u8
        requires { self.old.silent < 3 }
        ensures count { result ≡ self.old.silent + 1 }
        ensures new { self.new ≡ tale_after self.old None }
    {
        self.unheard += 1;
        self.unheard
    }

    /// Takes a reply, and says what it is.
    pub(crate) fn hear(&mut self, reply: &Wire) -> Result<Taken, AllocError>
        ensures taken { IfOk result (λ taken. taken ≡ taken_in self.old reply.now) }
        ensures new { OnOk result (self.new ≡ tale_after self.old (Some reply.now)) }
    {
        let Some(said) = read_reply(reply.as_slice()) else {
            self.unheard = 0;
            return Ok(Taken::Over);
        };
        let taken = self.taken_by(&said);
        self.note(reply, taken, &said)?;
        self.is_telling = self.is_telling || tells_status(&said);
        self.unheard = 0;
        Ok(taken)
    }

    /// What a response is taken for.
    fn taken_by(&self, said: &Reply<'_>) -> Taken
        ensures { result ≡ taken_by self.now said.now }
    {
        if !has_value(said.response) {
            return Taken::Over;
        }
        if !self.says_nothing(said) {
            return Taken::Report;
        }
        if self.is_again() {
            Taken::Repeat
        } else {
            Taken::Over
        }
    }

    /// Whether a response says that nothing waits.
    fn says_nothing(&self, said: &Reply<'_>) -> bool
        ensures { result ≡ says_nothing self.now said.now }
    {
        (is_status(said) && said.body.is_empty()) || is_said(&self.latest, said)
    }

    /// Notes a response that is handed on.
    fn note(&mut self, reply: &Wire, taken: Taken, said: &Reply<'_>) -> Result<(), AllocError>
        ensures { OnOk result (self.new ≡ noted self.old reply.now taken said.now) }
    {
        match taken {
            Taken::Report => {
                self.count(said)?;
                self.latest = Some(reply.copy());
                Ok(())
            }
            _ => Ok(()),
        }
    }

    /// Counts the entries of a status message, if this is its last part.
    fn count(&mut self, said: &Reply<'_>) -> Result<(), AllocError>
        ensures { OnOk result (self.new ≡ counted self.old said.now) }
    {
        if !is_status(said) {
            return Ok(());
        }
        self.joined.extend_from_slice(said.body)?;
        if is_ack(said.response) {
            self.sum = counts_with(self.sum, self.joined.as_slice());
            self.joined.clear();
        }
        Ok(())
    }
}

/// Whether a response tells of the status.
fn tells_status(said: &Reply<'_>) -> bool
    ensures { result ≡ tells_status said.now }
{
    has_value(said.response) && is_status(said)
}

/// Whether it is a status message.
fn is_status(said: &Reply<'_>) -> bool
    ensures { result ≡ is_status said.now }
{
    said.class == GET_COMMAND_RESPONSE && said.pid == STATUS_MESSAGES
}

/// Whether the data of a response are a value, or a part of one.
fn has_value(response: Response) -> bool
    ensures { result ≡ has_value response }
{
    match response {
        Response::Ack | Response::AckOverflow => true,
        Response::AckTimer { .. } | Response::Nack { .. } => false,
    }
}

/// Whether it is an ACK.
fn is_ack(response: Response) -> bool
    ensures { result ≡ is_ack response }
{
    matches!(response, Response::Ack)
}

/// Whether the reply that was handed on last said the same.
fn is_said(last: &Option<Wire>, said: &Reply<'_>) -> bool
    ensures { result ≡ is_said last.now said.now }
{
    let Some(last) = last else {
        return false;
    };
    match read_reply(last.as_slice()) {
        Some(before) => says_the_same(&before, said),
        None => false,
    }
}

/// Whether two responses say the same.
fn says_the_same(a: &Reply<'_>, b: &Reply<'_>) -> bool
    ensures { result ≡ says_the_same a.now b.now }
{
    type_code(a.response) == type_code(b.response)
        && a.class == b.class
        && a.pid == b.pid
        && a.sub == b.sub
        && a.body == b.body
}

/// The code of a response type (table A-2).
fn type_code(response: Response) -> u8
    ensures { result ≡ type_code response }
{
    match response {
        Response::Ack => ACK,
        Response::AckTimer { .. } => ACK_TIMER,
        Response::Nack { .. } => NACK_REASON,
        Response::AckOverflow => ACK_OVERFLOW,
    }
}

/// These counts, and the errors and warnings of a status message that stand.
fn counts_with(counts: StatusCounts, body: &[u8]) -> StatusCounts
    ensures { result ≡ counts_with counts body.now }
{
    let mut sum = counts;
    for index in 0..body.len() / ENTRY_SLOTS {
        // The sub-device, the status type, the status ID and two values.
        sum = counts_and(sum, Severity::of(body[ENTRY_SLOTS * index + 2]));
    }
    sum
}

/// These counts, and an entry, if it is an error or a warning: those of the cleared types are over (table A-4).
fn counts_and(counts: StatusCounts, severity: Option<Severity>) -> StatusCounts
    ensures errors { result.errors ≡ held (counts.errors + error_of severity) }
    ensures warnings { result.warnings ≡ held (counts.warnings + warning_of severity) }
{
    let StatusCounts { errors, warnings } = counts;
    match severity {
        Some(Severity::Error) => StatusCounts {
            errors: errors.saturating_add(1),
            warnings,
        },
        Some(Severity::Warning) => StatusCounts {
            errors,
            warnings: warnings.saturating_add(1),
        },
        _ => counts,
    }
}
