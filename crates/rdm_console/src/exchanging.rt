//! A request is sent through a port, and what comes of it is heard.

ghost use Rattle.std.specs.Prelude.{◌≡◌, ◌↔◌, Some, None, Err, IsSome, IfOk, IfErr};
ghost use Rattle.rdm_collector.specs.Sending.{refusal_of};
ghost use Rattle.rdm_collector.specs.AnyDevice.Collecting.{sender};
ghost use Rattle.rdm_console.specs.Exchanges.{FailsAsking, HasFailedOnce, HasGoneWrong, IsAnswered, IsAskedAgain, IsHeard, IsSentOnce, reply_as, turn};

use crate::{Came, Mailbox};
use rdm_collector::{AskError, Command, PollError, Port, PortError, Wire};
use thiserror::Error;

/// How many times a command is sent again that nothing answers.
const RETRIES: u8 = 2;

/// Why it can't be said what comes of a command.
#[derive(Clone, Copy, Debug, PartialEq, Eq, Error)]
pub enum AskFault {
    /// The command can't be sent.
    #[error("{0}")]
    Ask(AskError),
    /// The port failed.
    #[error("{0}")]
    Port(PortError),
}

/// Why it can't be said what comes of a poll.
#[derive(Clone, Copy, Debug, PartialEq, Eq, Error)]
pub enum PollFault {
    /// The poll can't be sent.
    #[error("{0}")]
    Poll(PollError),
    /// The port failed.
    #[error("{0}")]
    Port(PortError),
}

/// Sends a command through a port, and hears what comes in the mailbox. While nothing answers, it is sent again, three times in all.
/// Gives the reply, if one came. If the port fails, the mailbox hears nothing.
pub fn ask_through<P: Port>(
    mailbox: &mut Mailbox,
    port: &mut P,
    command: &Command,
) -> Result<Option<Wire>, AskFault>
    // It sends this command and nothing else.
    ensures sent { IfOk result (IsAskedAgain P.hears command.now (turn mailbox.old port.old) (turn mailbox.new port.new)) }
    // It fails only if the command can't be sent, or the port failed in this run.
    ensures failed { IfErr result (FailsAsking P.hears P.fails command.now (turn mailbox.old port.old) (turn mailbox.new port.new)) }
{
    for _turn in 0..RETRIES {
        match reply_once(mailbox, port, command) {
            Ok(reply) => {
                if reply.is_some() {
                    return Ok(reply);
                }
            }
            Err(fault) => return Err(fault),
        }
    }
    reply_once(mailbox, port, command)
}

/// The reply to a command that is sent once, if one comes.
fn reply_once<P: Port>(
    mailbox: &mut Mailbox,
    port: &mut P,
    command: &Command,
) -> Result<Option<Wire>, AskFault>
    ensures sent { IfOk result (IsAnswered P.hears command.now (turn mailbox.old port.old) (turn mailbox.new port.new)) }
    ensures failed { IfErr result (HasGoneWrong P.fails command.now (turn mailbox.old port.old) (turn mailbox.new port.new)) }
{
    match ask_once(mailbox, port, command) {
        Ok((came, heard)) => Ok(reply_of(came, heard)),
        Err(fault) => Err(fault),
    }
}

/// The reply, if it is one.
fn reply_of(came: Came, heard: Option<Wire>) -> Option<Wire>
    ensures { result ≡ reply_as came heard }
{
    match came {
        Came::Reply => heard,
        _ => None,
    }
}

/// Sends a command through a port once. Gives what came of it for the mailbox, and what was heard. If the port fails, the mailbox hears
/// nothing.
pub fn ask_once<P: Port>(
    mailbox: &mut Mailbox,
    port: &mut P,
    command: &Command,
) -> Result<(Came, Option<Wire>), AskFault>
    ensures sent { IfOk result (λ x. IsSentOnce P.hears (Some command.now) (turn mailbox.old port.old) (turn mailbox.new port.new) x.1 x.0) }
    ensures refused { (error : AskError) → (result ≡ Err (AskFault.Ask error)) ↔ (refusal_of (sender mailbox.old.collector) command.now ≡ Some error) }
    // It fails only if the command can't be sent, and then sends nothing; or with what the port failed with for this request.
    ensures failed { IfErr result (HasGoneWrong P.fails command.now (turn mailbox.old port.old) (turn mailbox.new port.new)) }
{
    let wire = match mailbox.ask(command) {
        Ok(wire) => wire,
        Err(error) => return Err(AskFault::Ask(error)),
    };
    match exchange_once(mailbox, port, &wire) {
        Ok(came) => Ok(came),
        Err(error) => Err(AskFault::Port(error)),
    }
}

/// Sends a poll through a port once, which fetches a message or a part of one. Gives what came of it for the mailbox, and what was heard.
/// If the port fails, the mailbox hears nothing.
pub fn poll_once<P: Port>(
    mailbox: &mut Mailbox,
    port: &mut P,
) -> Result<(Came, Option<Wire>), PollFault>
    ensures sent { IfOk result (λ x. IsSentOnce P.hears None (turn mailbox.old port.old) (turn mailbox.new port.new) x.1 x.0) }
    ensures busy { (result ≡ Err (PollFault.Poll PollError.Busy)) ↔ IsSome mailbox.old.collector.transaction }
    ensures unsent { (error : PollError) → result ≡ Err (PollFault.Poll error) → (mailbox.new ≡ mailbox.old) × (port.new ≡ port.old) }
    // An error of the port is one that it gave for this request.
    ensures failed { (error : PortError) → result ≡ Err (PollFault.Port error)
        → HasFailedOnce P.fails None (turn mailbox.old port.old) (turn mailbox.new port.new) error }
{
    let wire = match mailbox.poll() {
        Ok(wire) => wire,
        Err(error) => return Err(PollFault::Poll(error)),
    };
    match exchange_once(mailbox, port, &wire) {
        Ok(came) => Ok(came),
        Err(error) => Err(PollFault::Port(error)),
    }
}

/// Sends the bytes of a request for whose answer the mailbox waits. Gives what came of it, and what was heard. If the port fails, the
/// mailbox hears nothing.
fn exchange_once<P: Port>(
    mailbox: &mut Mailbox,
    port: &mut P,
    request: &Wire,
) -> Result<(Came, Option<Wire>), PortError>
    ensures sent { IfOk result (λ x. P.hears port.old request.now x.1 port.new
        × IsHeard mailbox.old mailbox.new mailbox.old.collector x.1 x.0) }
    ensures failed { IfErr result (λ error. P.fails port.old request.now error port.new
        × (said : Came) × IsHeard mailbox.old mailbox.new mailbox.old.collector None said) }
{
    match port.exchange(request) {
        Ok(heard) => {
            let came = mailbox.hear(&heard);
            Ok((came, heard))
        }
        Err(error) => {
            mailbox.hear(&None);
            Err(error)
        }
    }
}
