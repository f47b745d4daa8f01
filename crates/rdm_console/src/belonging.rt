//! Which message is the result of a command.

ghost use Rattle.std.specs.Prelude.{◌≡◌, ◌+◌, take};
ghost use Rattle.rdm_collector.specs.Requests.{class_of};
ghost use Rattle.rdm_console.specs.Belonging.{belongs, fits_index, has_value, index_size, index_size_of, same_index};

use crate::MessageView;
use rdm_collector::{Action, Command, Response};
use rdm_frame::standard::{
    DISCOVERY_COMMAND_RESPONSE, GET_COMMAND_RESPONSE, SENSOR_VALUE, SET_COMMAND_RESPONSE,
};

/// Whether a message is the result of a command: it has the class of its response, its parameter and its sub-device; and if the data
/// of the response begin with an index, as the number of a sensor, it is the one that the command asks for. A NACK or an ACK_TIMER
/// has no index: it is the result by class, parameter and sub-device (E1.20 sections 6.3.3, 6.3.4 and 10.3.1).
#[tactic(auto, unfolding(crate::specs::Belonging::belongs))]
pub fn belongs(command: &Command, message: &MessageView<'_>) -> bool
    ensures result { result ≡ belongs command.now message.now }
{
    message.class == response_class(command.action)
        && message.pid == command.pid
        && message.sub == command.sub
        && fits_index(command, message)
}

/// The command class of the response to a command (table A-1).
fn response_class(action: Action) -> u8
    ensures { result ≡ class_of action + 1 }
{
    match action {
        Action::Disc => DISCOVERY_COMMAND_RESPONSE,
        Action::Get => GET_COMMAND_RESPONSE,
        Action::Set => SET_COMMAND_RESPONSE,
    }
}

/// Whether the data of a message begin with the index that a command asks for, if they have one.
fn fits_index(command: &Command, message: &MessageView<'_>) -> bool
    ensures { result ≡ fits_index command.now message.now }
{
    !has_value(message.response)
        || is_same_index(index_size_of(command.action, command.pid), command, message)
}

/// Whether the data of a message begin with the same slots of index as those of a command.
pub(crate) fn is_same_index(size: usize, command: &Command, message: &MessageView<'_>) -> bool
    ensures { result ≡ same_index size command.now message.now }
{
    front(message.body, size) == front(command.load.as_slice(), size)
}

/// The first slots, or all if there are fewer.
fn front(slots: &[u8], size: usize) -> &[u8]
    ensures { result.now ≡ take size slots.now }
{
    &slots[..size.min(slots.len())]
}

/// Whether the data of a response are a value, and no reason or estimate.
fn has_value(response: Response) -> bool
    ensures { result ≡ has_value response }
{
    match response {
        Response::Ack | Response::AckOverflow => true,
        Response::AckTimer { .. } | Response::Nack { .. } => false,
    }
}

/// How many slots of index the data of a response begin with.
fn index_size_of(action: Action, pid: u16) -> usize
    ensures { result ≡ index_size_of action pid }
{
    match action {
        Action::Get => index_size(pid),
        Action::Set if pid == SENSOR_VALUE => 1,
        Action::Set | Action::Disc => 0,
    }
}

/// How many slots of index the data of a GET response begin with (E1.20 appendix A, table A-3, and E1.37-1).
pub(crate) fn index_size(pid: u16) -> usize
    ensures { result ≡ index_size pid }
{
    match pid {
        0x00E1 | 0x0200 | 0x0201 | 0x1021 | 0x0344 | 0x0346 | 0x0348 | 0x0642 => 1,
        0x0051 | 0x0121 | 0x1042 => 2,
        _ => 0,
    }
}
