//! The status messages of a fixture are fetched.

ghost use Rattle.std.specs.Prelude.{◌≡◌, ◌<◌, ◌++◌, false, IfOk, OnOk};
ghost use Rattle.rdm_surveyor.specs.Asking.{ends};
ghost use Rattle.rdm_surveyor.specs.Getting.{GoesOn, GoesOnTrying, HasGot, HasTried, IsGet};
ghost use Rattle.rdm_surveyor.specs.Statuses.{TellsLast, TellsStatus, given_after, is_over_after, status_request, tale_after};

use crate::SurveyFault;
use crate::statuses::{Taken, Tally};
use rdm_console::{Port, Uid, Wire};
use rdm_frame::standard::{
    FIRST_PORT, GET_COMMAND, GET_LAST_MESSAGE, ROOT_DEVICE, STATUS_MESSAGES, WARNING,
};
use rdm_frame::{FrameView, encode_into};
use rdm_survey::StatusCounts;
use std::alloc::Global;

/// How many requests there are at most.
const MOST_REQUESTS: u8 = 100;

/// How many requests in a row a fixture may leave unanswered.
const TRIES: u8 = 3;

/// A reply that tells of the status of a fixture. The fixture has given it, and need not give it again (E1.20 section 10.3.2).
#[derive(Debug, Drop)]
pub struct Report {
    /// The fixture.
    pub uid: Uid,
    /// Its reply.
    pub reply: Wire,
    /// Whether it was asked for again, so that it may have been fetched before.
    pub again: bool,
}

/// What the status messages of a fixture come to.
#[derive(Clone, Copy, Debug, PartialEq, Eq)]
pub struct Statuses {
    /// How many errors and warnings there are, or `None` if it tells none of its status.
    pub counts: Option<StatusCounts>,
    /// Whether there may be more of them, since it gave more than are fetched at once.
    pub has_more: bool,
}

/// Fetches the errors and warnings of a fixture by STATUS_MESSAGES (E1.20 section 10.3.2), until it has no more, and hands each reply on at
/// the end of a list: there it is also if the port fails behind it. After an answer that isn't heard the last message is asked for again,
/// so that none is lost. It asks at most 100 times, and gives up when three requests in a row aren't answered.
pub fn fetch_statuses<P: Port>(
    alloc: Global,
    console: Uid,
    uid: Uid,
    port: &mut P,
    reports: &mut Vec<Report>,
) -> Result<Statuses, SurveyFault>
    // The counts are what the replies in this run came to, and each that tells something is handed on.
    ensures told { IfOk result (λ s. TellsStatus P.hears (ends console uid) port.old reports.old.items s reports.new.items port.new) }
    // It sends GETs and nothing else.
    ensures got { OnOk result (HasGot P.hears port.old port.new) }
    // So it does where it stops, too, perhaps since the port failed at the last of them.
    ensures tried { HasTried P.hears P.fails port.old port.new }
{
    fetch(alloc, console, uid, port, reports)
}

/// Asks a fixture for its last status message again, by STATUS_GET_LAST_MESSAGE (E1.20 section 10.3.2): it was given before, perhaps to
/// somebody else. The reply is handed on at the end of a list, if it tells something. It isn't asked twice.
pub fn fetch_last_status<P: Port>(
    alloc: Global,
    console: Uid,
    uid: Uid,
    port: &mut P,
    reports: &mut Vec<Report>,
) -> Result<(), SurveyFault>
    // What it replied to this one request is handed on.
    ensures told { OnOk result (TellsLast P.hears (ends console uid) port.old reports.old.items reports.new.items port.new) }
    // It sends a GET and nothing else.
    ensures got { OnOk result (HasGot P.hears port.old port.new) }
    // So it does where it stops, too, perhaps since the port failed.
    ensures tried { HasTried P.hears P.fails port.old port.new }
{
    let mut tally = Tally::new(alloc);
    tally.miss();
    reports.reserve(1)?;
    let heard = port.exchange(&request(console, uid, 0, true))?;
    take(&mut tally, heard, uid, reports)?;
    Ok(())
}

/// The same, behind whatever was sent before.
pub(crate) fn fetch<P: Port>(
    alloc: Global,
    console: Uid,
    uid: Uid,
    port: &mut P,
    reports: &mut Vec<Report>,
) -> Result<Statuses, SurveyFault>
    ensures told { IfOk result (λ s. TellsStatus P.hears (ends console uid) port.old reports.old.items s reports.new.items port.new) }
    ensures got { OnOk result (GoesOn P.hears port.old port.new) }
    ensures tried { GoesOnTrying P.hears P.fails port.old port.new }
{
    let mut tally = Tally::new(alloc);
    for number in 0..MOST_REQUESTS {
        // There is room for what comes before it is asked for.
        reports.reserve(1)?;
        let heard = port.exchange(&request(console, uid, number, tally.is_again()))?;
        if take(&mut tally, heard, uid, reports)? {
            return Ok(Statuses {
                counts: tally.counts(),
                has_more: false,
            });
        }
    }
    Ok(Statuses {
        counts: tally.counts(),
        has_more: true,
    })
}

/// Takes what came for a request, and says whether it is over.
fn take(
    tally: &mut Tally,
    heard: Option<Wire>,
    uid: Uid,
    reports: &mut Vec<Report>,
) -> Result<bool, SurveyFault>
    requires { tally.old.silent < 3 }
    ensures over { IfOk result (λ over. over ≡ is_over_after tally.old heard) }
    ensures tally { OnOk result (tally.new ≡ tale_after tally.old heard) }
    ensures given { OnOk result (reports.new.items ≡ reports.old.items ++ given_after uid tally.old heard) }
    ensures few { IfOk result (λ over. over ≡ false → tally.new.silent < 3) }
{
    let Some(reply) = heard else {
        return Ok(tally.miss() == TRIES);
    };
    let again = tally.is_again();
    match tally.hear(&reply)? {
        Taken::Over => Ok(true),
        Taken::Repeat => Ok(false),
        Taken::Report => {
            reports.push(Report { uid, reply, again })?;
            Ok(false)
        }
    }
}

/// The request for the errors and warnings of a fixture, or for its last message again (table A-4).
fn request(console: Uid, uid: Uid, number: u8, again: bool) -> Wire
    ensures text { result ≡ status_request (ends console uid) number again }
    ensures get { IsGet result }
{
    let status_type = if again { GET_LAST_MESSAGE } else { WARNING };
    let frame = FrameView {
        dst: uid,
        src: console,
        tn: number,
        port: FIRST_PORT,
        count: 0,
        sub: ROOT_DEVICE,
        class: GET_COMMAND,
        pid: STATUS_MESSAGES,
        body: &[status_type],
    };
    let mut wire = Wire::new();
    encode_into(&frame, &mut wire);
    wire
}
