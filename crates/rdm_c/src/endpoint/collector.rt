//! What a collector does for C.

ghost use Rattle.std.specs.Prelude.{◌≡◌, ◌≢◌, ◌↔◌, IfSome, IsSome, None, Some, is_some, slice_get};
ghost use Rattle.rdm_collector.specs.Sending.{refusal_of, poll_request, command_request};
ghost use Rattle.rdm_collector.specs.AnyDevice.Collecting.{sender, after_ask, after_poll, after_over, after_hearing, heard_in};
ghost use Rattle.rdm_c.specs.Endpoints.{collector_of, found};
ghost use Rattle.rdm_c.specs.Messages.{MessageTold, after_next, heard_numbers};
ghost use Rattle.rdm_c.specs.Requests.{IsWritten};
ghost use Rattle.rdm_c.specs.Statuses.{code_of, of_refusal};

use crate::endpoint::Endpoint;
use crate::front::write_front;
use crate::message::{HeardNumbers, MessageNumbers};
use crate::status::Status;
use rdm_collector::{AskError, Command, PollError};
use rdm_frame::standard::MOST_SLOTS;

/// Sends a command: writes its request to the front.
pub(crate) fn ask(
    endpoint: &mut Endpoint,
    command: &Command,
    request: &mut [u8; MOST_SLOTS],
    count: &mut usize,
) -> Status
    ensures refused { IfSome (collector_of endpoint.old) (λ s. result ≡ of_refusal (refusal_of (sender s) command.now)) }
    ensures sent { IfSome (collector_of endpoint.old) (λ s. result ≡ Status.Done →
        IsWritten count.new request.new (command_request (sender s) command.now)) }
    ensures after { IfSome (collector_of endpoint.old) (λ s. result ≡ Status.Done →
        collector_of endpoint.new ≡ Some (after_ask s command.now)) }
    ensures same { result ≢ Status.Done → endpoint.new ≡ endpoint.old }
    ensures absent { (result ≡ Status.Absent) ↔ (collector_of endpoint.old ≡ None) }
    ensures known { result ≢ Status.Unknown }
{
    let Endpoint::Collector(collector) = endpoint else {
        return Status::Absent;
    };
    match collector.ask(command) {
        Ok(wire) => {
            *count = write_front(wire.as_slice(), request);
            Status::Done
        }
        Err(AskError::Reserved) => Status::Reserved,
        Err(AskError::Busy) => Status::Busy,
        Err(AskError::TooLong) => Status::TooLong,
    }
}

/// Sends a poll: writes its request to the front.
pub(crate) fn poll(
    endpoint: &mut Endpoint,
    request: &mut [u8; MOST_SLOTS],
    count: &mut usize,
) -> Status
    ensures busy { IfSome (collector_of endpoint.old) (λ s. (result ≡ Status.Busy) ↔ IsSome s.transaction) }
    ensures sent { IfSome (collector_of endpoint.old) (λ s. result ≡ Status.Done →
        IsWritten count.new request.new (poll_request (sender s))) }
    ensures after { IfSome (collector_of endpoint.old) (λ s. result ≡ Status.Done →
        collector_of endpoint.new ≡ Some (after_poll s)) }
    ensures same { result ≢ Status.Done → endpoint.new ≡ endpoint.old }
    ensures absent { (result ≡ Status.Absent) ↔ (collector_of endpoint.old ≡ None) }
    ensures statuses { result ≢ Status.Done → result ≢ Status.Absent → result ≢ Status.Busy → result ≡ Status.OutOfMemory }
{
    let Endpoint::Collector(collector) = endpoint else {
        return Status::Absent;
    };
    match collector.poll() {
        Ok(wire) => {
            *count = write_front(wire.as_slice(), request);
            Status::Done
        }
        Err(PollError::OutOfMemory) => Status::OutOfMemory,
        Err(PollError::Busy) => Status::Busy,
    }
}

/// Hears bytes, and tells what they are taken for.
pub(crate) fn hear(endpoint: &mut Endpoint, bytes: &[u8], heard: &mut HeardNumbers) -> Status
    ensures status { result ≡ found (is_some (collector_of endpoint.old)) }
    ensures heard { IfSome (collector_of endpoint.old) (λ s. heard.new ≡ heard_numbers (heard_in s bytes.now)) }
    ensures after { IfSome (collector_of endpoint.old) (λ s.
        collector_of endpoint.new ≡ Some (after_hearing s bytes.now)) }
    ensures absent { result ≢ Status.Done → endpoint.new ≡ endpoint.old }
{
    let Endpoint::Collector(collector) = endpoint else {
        return Status::Absent;
    };
    *heard = HeardNumbers::of(collector.hear(bytes));
    Status::Done
}

/// Ends the open transaction, if there is one, without an answer.
pub(crate) fn over(endpoint: &mut Endpoint) -> Status
    ensures status { result ≡ found (is_some (collector_of endpoint.old)) }
    ensures after { IfSome (collector_of endpoint.old) (λ s. collector_of endpoint.new ≡ Some (after_over s)) }
    ensures absent { result ≢ Status.Done → endpoint.new ≡ endpoint.old }
{
    let Endpoint::Collector(collector) = endpoint else {
        return Status::Absent;
    };
    collector.over();
    Status::Done
}

/// Takes the first of what was recorded, and tells of it.
pub(crate) fn next(endpoint: &mut Endpoint, message: &mut MessageNumbers) -> Status
    ensures next { IfSome (collector_of endpoint.old) (λ s. MessageTold (code_of result) message.new (slice_get s.recorded 0)) }
    ensures after { IfSome (collector_of endpoint.old) (λ s. result ≡ Status.Done → collector_of endpoint.new ≡ Some (after_next s)) }
    ensures absent { (result ≡ Status.Absent) ↔ (collector_of endpoint.old ≡ None) }
    ensures same { result ≢ Status.Done → endpoint.new ≡ endpoint.old }
{
    let Endpoint::Collector(collector) = endpoint else {
        return Status::Absent;
    };
    let Some(first) = collector.recorded().first() else {
        return Status::NoMore;
    };
    message.tell(first);
    collector.forget(1);
    Status::Done
}
