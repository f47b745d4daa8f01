//! Why a command failed.

ghost use Rattle.std.specs.Prelude.{◌≡◌, ◌≤◌, ◌+◌, ◌/◌, length};
ghost use Rattle.rdm_frame.specs.Reading.{word_at};
ghost use Rattle.rdm_console.specs.Endings.{cause_at, cause_in, is_ack, is_standing, is_status, newest_cause};

use crate::MessageView;
use rdm_collector::Response;
use rdm_frame::standard::{GET_COMMAND_RESPONSE, STATUS_MESSAGES};
use rdm_frame::{Entry, Severity};

/// How many slots an entry of a status message has (E1.20 section 10.3.2).
const ENTRY_SLOTS: usize = 9;

/// What is wrong with a sub-device, by a message: the newest entry about it, if this is a status message with one.
pub(crate) fn cause_in(sub: u16, message: &MessageView<'_>) -> Option<Entry>
    ensures { result ≡ cause_in sub message.now }
{
    if is_status(message) {
        newest_cause(sub, message.body)
    } else {
        None
    }
}

/// Whether it is a status message.
fn is_status(message: &MessageView<'_>) -> bool
    ensures { result ≡ is_status message.now }
{
    is_ack(message.response)
        && message.class == GET_COMMAND_RESPONSE
        && message.pid == STATUS_MESSAGES
}

/// Whether it is an ACK.
pub(crate) fn is_ack(response: Response) -> bool
    ensures { result ≡ is_ack response }
{
    matches!(response, Response::Ack)
}

/// The newest entry of a status message that says what is wrong with a sub-device: the last.
fn newest_cause(sub: u16, body: &[u8]) -> Option<Entry>
    ensures { result ≡ newest_cause sub body.now (length body.now / 9) }
{
    let mut count = body.len() / ENTRY_SLOTS;
    while count > 0 {
        count -= 1;
        if let Some(entry) = cause_at(sub, body, ENTRY_SLOTS * count) {
            return Some(entry);
        }
    }
    None
}

/// The entry at a slot, if it says what is wrong with a sub-device.
#[tactic(auto, unfolding(crate::specs::Endings::cause_at))]
fn cause_at(sub: u16, body: &[u8], slot: usize) -> Option<Entry>
    requires { slot + 9 ≤ length body.now }
    ensures { result ≡ cause_at sub body.now slot }
{
    let severity = Severity::of(body[slot + 2])?;
    let entry = Entry {
        sub: word_at(body, slot),
        severity,
        id: word_at(body, slot + 3),
        v1: word_at(body, slot + 5),
        v2: word_at(body, slot + 7),
    };
    if entry.sub == sub && is_standing(severity) {
        Some(entry)
    } else {
        None
    }
}

/// Whether it isn't over (table A-4).
fn is_standing(severity: Severity) -> bool
    ensures { result ≡ is_standing severity }
{
    match severity {
        Severity::Advisory | Severity::Warning | Severity::Error => true,
        Severity::AdvisoryCleared | Severity::WarningCleared | Severity::ErrorCleared => false,
    }
}

/// The 16-bit number at a slot.
fn word_at(bytes: &[u8], slot: usize) -> u16
    requires { slot + 2 ≤ length bytes.now }
    ensures { result ≡ word_at bytes.now slot }
{
    u16::from_be_bytes([bytes[slot], bytes[slot + 1]])
}
