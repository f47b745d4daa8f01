//! The words of a frame's header (E1.20 section 6.2).

ghost use Rattle.std.specs.Prelude.{◌≡◌, ◌++◌, OnOk, length, option_map, string_bytes};
ghost use Rattle.std.specs.Int.{w16, from_be_bytes};
ghost use Rattle.rdm_words.specs.HeaderWords.{destination_words, details_words, header_words, makers_words, parties_words, port_words, reply_type_words, request_words, response_words, subject_words, type_words, verb_of, waiting_words};

use crate::data::own::put_parameter_by;
use crate::data::times::put_tenths;
use crate::data::values::{put_named, put_or};
use crate::frame::class::{is_response, put_class};
use crate::frame::place::put_place;
use crate::tables::replies::{nack_reason, reply_type_name};
use crate::text::put_word;
use rdm_frame::standard::{
    ACK_TIMER, DISCOVERY_COMMAND, FIRST_PORT, GET_COMMAND, NACK_REASON, SET_COMMAND,
};
use rdm_frame::{FrameView, Uid};
use std::alloc::AllocError;
use std::fmt::Write;

/// The header of a frame of a parameter that the fixture gives this name, if it gives one.
pub(crate) fn put_header(
    text: &mut String,
    frame: &FrameView<'_>,
    own: Option<&[u8]>,
) -> Result<(), AllocError>
    ensures { OnOk result (string_bytes text.new ≡ string_bytes text.old ++ header_words frame.now (option_map (λ name. name.now) own.entry)) }
{
    if is_response(frame.class) {
        return put_response(text, frame, own);
    }
    put_request(text, verb_of(frame.class), frame, own)
}

/// What the source does: it asks, unless the standard doesn't have the command class.
#[tactic(auto, unfolding(crate::specs::HeaderWords::verb_of))]
fn verb_of(class: u8) -> &'static str
    ensures { result.now ≡ verb_of class }
{
    match class {
        DISCOVERY_COMMAND | GET_COMMAND | SET_COMMAND => "asks",
        _ => "to",
    }
}

/// A request: who asks whom, for what, and where. It is the same for a frame with a command class that the standard doesn't
/// have, but for the verb.
#[tactic(auto, unfolding(crate::specs::HeaderWords::request_words))]
fn put_request(
    text: &mut String,
    verb: &str,
    frame: &FrameView<'_>,
    own: Option<&[u8]>,
) -> Result<(), AllocError>
    ensures { OnOk result (string_bytes text.new ≡ string_bytes text.old ++ request_words verb.now frame.now (option_map (λ name. name.now) own.entry)) }
{
    put_parties(text, verb, frame.src, frame.dst)?;
    text.push_str(" ")?;
    put_class(text, frame.class)?;
    put_subject(text, frame.pid, frame.sub, frame.tn, own)?;
    put_port(text, frame.port)?;
    put_waiting(text, frame.count)
}

/// A reply: who answers whom, how, to what, and where.
#[tactic(auto, unfolding(crate::specs::HeaderWords::response_words))]
fn put_response(
    text: &mut String,
    frame: &FrameView<'_>,
    own: Option<&[u8]>,
) -> Result<(), AllocError>
    ensures { OnOk result (string_bytes text.new ≡ string_bytes text.old ++ response_words frame.now (option_map (λ name. name.now) own.entry)) }
{
    put_parties(text, "answers", frame.src, frame.dst)?;
    text.push_str(" ")?;
    put_response_type(text, frame.port, frame.body)?;
    text.push_str(", ")?;
    put_class(text, frame.class)?;
    put_subject(text, frame.pid, frame.sub, frame.tn, own)?;
    put_waiting(text, frame.count)
}

/// From whom a frame is, and for whom.
#[tactic(auto, unfolding(crate::specs::HeaderWords::parties_words))]
fn put_parties(text: &mut String, verb: &str, source: Uid, uid: Uid) -> Result<(), AllocError>
    ensures { OnOk result (string_bytes text.new ≡ string_bytes text.old ++ parties_words verb.now source uid) }
{
    write!(text, "{source} {verb} ")?;
    put_destination(text, uid)
}

/// For whom a frame is: a device, or all of them (section 6.2.4).
#[tactic(auto, unfolding(crate::specs::HeaderWords::destination_words))]
fn put_destination(text: &mut String, uid: Uid) -> Result<(), AllocError>
    ensures { OnOk result (string_bytes text.new ≡ string_bytes text.old ++ destination_words uid) }
{
    if uid == Uid::ALL {
        return write!(text, "all devices ({uid}):");
    }
    if uid.is_broadcast() {
        return put_makers(text, uid);
    }
    write!(text, "{uid}:")
}

/// All devices of a manufacturer.
fn put_makers(text: &mut String, uid: Uid) -> Result<(), AllocError>
    ensures { OnOk result (string_bytes text.new ≡ string_bytes text.old ++ makers_words uid) }
{
    text.push_str("all devices of ")?;
    put_word(text, uid.maker)?;
    write!(text, " ({uid}):")
}

/// The parameter, where it is, and the transaction.
#[tactic(auto, unfolding(crate::specs::HeaderWords::subject_words))]
fn put_subject(
    text: &mut String,
    pid: u16,
    sub: u16,
    tn: u8,
    own: Option<&[u8]>,
) -> Result<(), AllocError>
    ensures { OnOk result (string_bytes text.new ≡ string_bytes text.old ++ subject_words pid sub tn (option_map (λ name. name.now) own.entry)) }
{
    text.push_str(" ")?;
    put_parameter_by(text, pid, own)?;
    text.push_str(", ")?;
    put_place(text, sub)?;
    write!(text, ", transaction {tn}")
}

/// The port, if it isn't the first (section 6.2.7).
#[tactic(auto, unfolding(crate::specs::HeaderWords::port_words))]
fn put_port(text: &mut String, port: u8) -> Result<(), AllocError>
    ensures { OnOk result (string_bytes text.new ≡ string_bytes text.old ++ port_words port) }
{
    match port {
        FIRST_PORT => Ok(()),
        _ => write!(text, ", port {port}"),
    }
}

/// How a request is answered.
#[tactic(auto, unfolding(crate::specs::HeaderWords::reply_type_words))]
pub(crate) fn put_response_type(text: &mut String, code: u8, data: &[u8]) -> Result<(), AllocError>
    ensures { OnOk result (string_bytes text.new ≡ string_bytes text.old ++ reply_type_words code data.now) }
{
    put_type(text, code)?;
    put_details(text, code, data)
}

/// A response type by its name, or by its code.
fn put_type(text: &mut String, code: u8) -> Result<(), AllocError>
    ensures { OnOk result (string_bytes text.new ≡ string_bytes text.old ++ type_words code) }
{
    put_or(
        text,
        "response type ",
        reply_type_name(code),
        &code.to_be_bytes(),
    )
}

/// What an ACK_TIMER estimates, in tenths of a second, or why a request isn't done (sections 6.3.3 and 6.3.4).
#[tactic(auto, unfolding(crate::specs::HeaderWords::details_words))]
fn put_details(text: &mut String, code: u8, data: &[u8]) -> Result<(), AllocError>
    ensures { OnOk result (string_bytes text.new ≡ string_bytes text.old ++ details_words code data.now) }
{
    if data.len() != 2 {
        return Ok(());
    }
    let number = word_in(data);
    match code {
        ACK_TIMER => {
            text.push_str(" ")?;
            put_tenths(text, number)
        }
        NACK_REASON => {
            text.push_str(" ")?;
            put_named(text, nack_reason(number), data)
        }
        _ => Ok(()),
    }
}

/// The number of two slots.
pub(crate) fn word_in(slots: &[u8]) -> u16
    requires two { length slots.now ≡ 2 }
    ensures { result ≡ from_be_bytes w16 slots.now }
{
    u16::from_be_bytes([slots[0], slots[1]])
}

/// How many messages wait in the responder, if any does (section 6.2.8).
#[tactic(auto, unfolding(crate::specs::HeaderWords::waiting_words))]
fn put_waiting(text: &mut String, count: u8) -> Result<(), AllocError>
    ensures { OnOk result (string_bytes text.new ≡ string_bytes text.old ++ waiting_words count) }
{
    match count {
        0 => Ok(()),
        1 => write!(text, ", {count} message waits"),
        255 => write!(text, ", {count} or more messages wait"),
        _ => write!(text, ", {count} messages wait"),
    }
}
