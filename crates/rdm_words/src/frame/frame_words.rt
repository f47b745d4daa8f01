//! The words of a frame: a line of its header, and lines of its data below.

ghost use Rattle.std.specs.Prelude.{◌≡◌, ◌≢◌, ◌<◌, ℕ, List, [], ◌++◌, true, Some, None, IsTrue, OnOk, length, string_bytes};
ghost use Rattle.rdm_words.specs.Fixed.{AreWordsOfBytes, AreWordsOfWhole, answer_words, cause_words, has_no_start, is_readable, stray_words, with_start};
ghost use Rattle.rdm_words.specs.Before.{IsAnswerOf};
ghost use Rattle.rdm_words.specs.Plain.{IsFixed, IsPlain};
ghost use Rattle.rdm_words.specs.FrameFacts.{AreFactsOfBytes, AreFactsOfWhole, frame_facts};
ghost use Rattle.rdm_words.specs.DataFacts.{body_facts};
ghost use Rattle.rdm_words.specs.LaidOut.{layout_facts};
ghost use Rattle.rdm_words.specs.Naming.{AddsNames, SaysFacts};
ghost use Rattle.rdm_words.specs.Unread.{HasUnread, AreLastOfBytes, AreLastOfWhole, data_line, is_put_off, plain_line, put_off_line, stray_line};

use crate::Known;
use crate::data::form::{Form, Layout};
use crate::data::known::Facts;
use crate::data::layout::layout_of;
use crate::data::lengths::put_wrong_length;
use crate::data::own::{own_name, put_own_words};
use crate::data::values::{put_data, put_value};
use crate::frame::class::is_response;
use crate::frame::header::put_header;
use crate::frame::invalid::{header_of, is_readable, put_wrongs};
use crate::text::{put_below, put_hex};
use rdm_frame::standard::{ACK, ACK_TIMER, MOST_SLOTS, NACK_REASON, START_CODE, SUB_START_CODE};
use rdm_frame::{FrameError, FrameView, Uid, Wire, branch_uid, decode_view};
use std::alloc::AllocError;
use std::fmt::Write;

/// What stands before a line of data.
const DATA_LINE: &str = "\n  ";

/// The words of bytes from the bus, which may lack their START code.
pub(crate) fn put_bytes_words(
    text: &mut String,
    bytes: &Wire,
    known: &Known<'_>,
) -> Result<(), AllocError>
    ensures fixed { OnOk result
        ((words : List ℕ) → AreWordsOfBytes bytes.now words → IsFixed words × (string_bytes text.new ≡ string_bytes text.old ++ words)) }
    ensures last { OnOk result ((words : List ℕ) → AreLastOfBytes bytes.now words
        → IsFixed words × (front : List ℕ) × (string_bytes text.new ≡ string_bytes text.old ++ (front ++ words))) }
    ensures named { OnOk result ((facts : List (List ℕ)) → AreFactsOfBytes bytes.now facts → SaysFacts facts (string_bytes text.old) (string_bytes text.new)) }
{
    put_whole_words(text, with_start(bytes).as_slice(), known)
}

/// The bytes with their START code, which Art-Net leaves out.
fn with_start(bytes: &Wire) -> Wire
    ensures { result ≡ with_start bytes.now }
{
    if has_no_start(bytes.as_slice()) {
        let mut whole = Wire::new();
        whole.append(&[START_CODE]);
        whole.append(bytes.as_slice());
        return whole;
    }
    bytes.copy()
}

/// Whether bytes begin at the sub-START code, and there is room for the START code.
fn has_no_start(bytes: &[u8]) -> bool
    ensures start { result ≡ has_no_start bytes.now }
    ensures room { IsTrue result → length bytes.now < 257 }
{
    !bytes.is_empty() && bytes[0] == SUB_START_CODE && bytes.len() < MOST_SLOTS
}

/// The words of bytes from the bus.
fn put_whole_words(text: &mut String, bytes: &[u8], known: &Known<'_>) -> Result<(), AllocError>
    ensures fixed { OnOk result
        ((words : List ℕ) → AreWordsOfWhole bytes.now words → IsFixed words × (string_bytes text.new ≡ string_bytes text.old ++ words)) }
    ensures last { OnOk result ((words : List ℕ) → AreLastOfWhole bytes.now words
        → IsFixed words × (front : List ℕ) × (string_bytes text.new ≡ string_bytes text.old ++ (front ++ words))) }
    ensures named { OnOk result ((facts : List (List ℕ)) → AreFactsOfWhole bytes.now facts → SaysFacts facts (string_bytes text.old) (string_bytes text.new)) }
{
    match decode_view(bytes) {
        Ok(frame) => put_frame(text, &frame, known),
        Err(error) => put_other(text, bytes, error, known),
    }
}

/// Bytes that aren't a valid frame: the answer to DISC_UNIQUE_BRANCH, or bytes that are shown as they are, behind what they say if they can
/// be read all the same.
fn put_other(
    text: &mut String,
    bytes: &[u8],
    error: FrameError,
    known: &Known<'_>,
) -> Result<(), AllocError>
    ensures answer { (uid : Uid) → IsAnswerOf uid bytes.now → OnOk result (string_bytes text.new ≡ string_bytes text.old ++ answer_words uid) }
    ensures stray { ((uid : Uid) → IsAnswerOf uid bytes.now → ⊥) → is_readable bytes.now ≢ true
        → OnOk result (string_bytes text.new ≡ string_bytes text.old ++ stray_words error bytes.now) }
    ensures readable { ((uid : Uid) → IsAnswerOf uid bytes.now → ⊥) → is_readable bytes.now ≡ true
        → OnOk result ((front : List ℕ) × (string_bytes text.new ≡ string_bytes text.old ++ (front ++ stray_line error bytes.now))) }
{
    if let Some(uid) = branch_uid(bytes) {
        return write!(text, "{uid} answers: DISC_UNIQUE_BRANCH");
    }
    if is_readable(bytes) {
        return put_readable(text, bytes, error, known);
    }
    put_stray(text, bytes, error)
}

/// Bytes that aren't a valid frame, and can be read as one: what they say, what is wrong with them, and the bytes.
fn put_readable(
    text: &mut String,
    bytes: &[u8],
    error: FrameError,
    known: &Known<'_>,
) -> Result<(), AllocError>
    ensures { OnOk result ((front : List ℕ) × (string_bytes text.new ≡ string_bytes text.old ++ (front ++ stray_line error bytes.now))) }
{
    let mut head = String::new(*text.allocator());
    put_invalid(&mut head, bytes, known)?;
    text.push_str(head.as_str())?;
    text.push_str(DATA_LINE)?;
    put_stray(text, bytes, error)
}

/// What bytes say that aren't a valid frame, and what is wrong with them.
fn put_invalid(text: &mut String, bytes: &[u8], known: &Known<'_>) -> Result<(), AllocError> {
    let Some(frame) = header_of(bytes) else {
        return Ok(());
    };
    text.push_str("invalid: ")?;
    put_frame(text, &frame, known)?;
    text.push_str(DATA_LINE)?;
    put_wrongs(text, bytes)
}

/// Bytes that aren't a valid frame: why, and all of their digits.
fn put_stray(text: &mut String, bytes: &[u8], error: FrameError) -> Result<(), AllocError>
    ensures { OnOk result (string_bytes text.new ≡ string_bytes text.old ++ stray_words error bytes.now) }
{
    let cause = cause_of(error);
    write!(text, "no frame ({cause}): ")?;
    put_hex(text, bytes)
}

/// Why bytes aren't a valid frame.
pub(crate) fn cause_of(error: FrameError) -> &'static str
    ensures { result.now ≡ cause_words error }
{
    match error {
        FrameError::Short => "fewer bytes than the shortest frame",
        FrameError::Start => "wrong START code",
        FrameError::SubStart => "wrong sub-START code",
        FrameError::Length => "the message length doesn't match the number of bytes",
        FrameError::Pdl => "the parameter data length doesn't match the message length",
        FrameError::Checksum => "wrong checksum",
    }
}

/// A frame: the line of its header, and those of its data below.
fn put_frame(text: &mut String, frame: &FrameView<'_>, known: &Known<'_>) -> Result<(), AllocError>
    ensures last { HasUnread frame.now → OnOk result
        ((front : List ℕ) × (string_bytes text.new ≡ string_bytes text.old ++ (front ++ data_line frame.now.body))) }
    ensures named { OnOk result (SaysFacts (frame_facts frame.now) (string_bytes text.old) (string_bytes text.new)) }
{
    let facts = known.at(owner_of(frame));
    let mut head = String::new(*text.allocator());
    put_header(&mut head, frame, own_name(frame.pid, &facts))?;
    let mut own = String::new(*text.allocator());
    put_own(&mut own, frame, &facts)?;
    text.push_str(head.as_str())?;
    put_below(text, own.as_str())?;
    put_body(text, frame, &facts)
}

/// Whose parameter a frame tells of: that of the device which responds, or is asked.
fn owner_of(frame: &FrameView<'_>) -> Uid {
    if is_response(frame.class) {
        frame.src
    } else {
        frame.dst
    }
}

/// What the data of a parameter say that no table of the standard has, if that is known of the fixture.
fn put_own(text: &mut String, frame: &FrameView<'_>, known: &Facts<'_>) -> Result<(), AllocError> {
    if is_response(frame.class) && frame.port != ACK {
        return Ok(());
    }
    put_own_words(text, frame.class, frame.pid, frame.body, known)
}

/// The lines of the data, but for those of an ACK_TIMER or a NACK, which stand in the header.
fn put_body(text: &mut String, frame: &FrameView<'_>, known: &Facts<'_>) -> Result<(), AllocError>
    ensures last { HasUnread frame.now → OnOk result (string_bytes text.new ≡ string_bytes text.old ++ data_line frame.now.body) }
    ensures named { OnOk result (AddsNames (body_facts frame.now) (string_bytes text.old) (string_bytes text.new)) }
{
    if is_response(frame.class) && is_put_off(frame.port) {
        return put_put_off(text, frame.body);
    }
    let subject = Subject {
        pid: frame.pid,
        is_whole: !is_response(frame.class) || frame.port == ACK,
    };
    let layout = layout_of(frame.class, frame.pid);
    put_data_lines(text, subject, layout, frame.body, known)
}

/// The data of an ACK_TIMER or a NACK, if they aren't the two slots that stand in the header.
fn put_put_off(text: &mut String, slots: &[u8]) -> Result<(), AllocError>
    ensures { OnOk result (string_bytes text.new ≡ string_bytes text.old ++ put_off_line slots.now) }
{
    if slots.len() == 2 {
        return Ok(());
    }
    put_plain_line(text, slots)
}

/// Of what data are.
#[derive(Clone, Copy)]
pub(crate) struct Subject {
    /// The parameter.
    pid: u16,
    /// Whether they are all there, and not a part of them.
    is_whole: bool,
}

impl Subject {
    /// All data of a parameter.
    pub(crate) fn whole(pid: u16) -> Subject {
        Subject {
            pid,
            is_whole: true,
        }
    }
}

/// Whether the response type is ACK_TIMER or NACK_REASON.
fn is_put_off(port: u8) -> bool
    ensures { result ≡ is_put_off port }
{
    port == ACK_TIMER || port == NACK_REASON
}

/// The lines of data, if there is something to say.
pub(crate) fn put_data_lines(
    text: &mut String,
    subject: Subject,
    layout: Option<Layout>,
    slots: &[u8],
    known: &Facts<'_>,
) -> Result<(), AllocError>
    ensures last { layout ≡ None → slots.now ≢ [] → OnOk result (string_bytes text.new ≡ string_bytes text.old ++ data_line slots.now) }
    ensures plain { IsPlain (data_line slots.now) }
    ensures named { OnOk result (AddsNames (layout_facts layout slots.now) (string_bytes text.old) (string_bytes text.new)) }
{
    match layout {
        Some(layout) => put_laid_out(text, subject, layout, slots, known),
        None => put_plain_line(text, slots),
    }
}

/// The lines of data of this layout.
fn put_laid_out(
    text: &mut String,
    subject: Subject,
    layout: Layout,
    data: &[u8],
    known: &Facts<'_>,
) -> Result<(), AllocError>
    ensures { OnOk result (AddsNames (layout_facts (Some layout) data.now) (string_bytes text.old) (string_bytes text.new)) }
{
    let mut wrong = String::new(*text.allocator());
    if subject.is_whole {
        put_wrong_length(&mut wrong, subject.pid, layout.1, data)?;
    }
    put_below(text, wrong.as_str())?;
    put_laid_out_lines(text, layout, data, known)
}

/// The same without what is wrong with their length.
#[tactic(auto, using(crate::proofs::Naming::adds_plain))]
fn put_laid_out_lines(
    text: &mut String,
    layout: Layout,
    data: &[u8],
    known: &Facts<'_>,
) -> Result<(), AllocError>
    ensures { OnOk result (AddsNames (layout_facts (Some layout) data.now) (string_bytes text.old) (string_bytes text.new)) }
{
    match layout.1 {
        Form::Nothing | Form::Shown => put_plain_line(text, data),
        _ => put_own_line(text, layout, data, known),
    }
}

/// The same on lines of their own.
fn put_own_line(
    text: &mut String,
    layout: Layout,
    data: &[u8],
    known: &Facts<'_>,
) -> Result<(), AllocError>
    ensures { OnOk result (AddsNames (layout_facts (Some layout) data.now) (string_bytes text.old) (string_bytes text.new)) }
{
    text.push_str(DATA_LINE)?;
    put_value(text, layout, data, known)
}

/// A line of data that have no words, if there are any.
fn put_plain_line(text: &mut String, slots: &[u8]) -> Result<(), AllocError>
    ensures some { slots.now ≢ [] → OnOk result (string_bytes text.new ≡ string_bytes text.old ++ data_line slots.now) }
    ensures all { OnOk result (string_bytes text.new ≡ string_bytes text.old ++ plain_line slots.now) }
{
    if slots.is_empty() {
        return Ok(());
    }
    text.push_str(DATA_LINE)?;
    put_data(text, slots)
}
