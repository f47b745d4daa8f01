//! What a frame says in a few words, for a picture.

ghost use Rattle.std.specs.Prelude.{◌≡◌, ℕ, List, ◌++◌, OnOk};
ghost use Rattle.rdm_words.specs.Plain.{IsPlain};

use crate::Known;
use crate::data::form::{Form, Layout};
use crate::data::known::Facts;
use crate::data::layout::layout_of;
use crate::data::lists::put_count_of;
use crate::data::own::put_own;
use crate::data::values::put_value;
use crate::frame::class::{Class, put_class};
use crate::frame::frame_words::cause_of;
use crate::frame::header::put_response_type;
use crate::frame::place::put_place;
use crate::tables::parameters::parameter;
use crate::tables::replies::nack_reason;
use crate::text::{put_quoted, put_shown};
use rdm_frame::standard::{ACK, NACK_REASON, ROOT_DEVICE};
use rdm_frame::{FrameError, FrameView, branch_uid, decode_view};
use std::alloc::AllocError;
use std::fmt::Write;

/// The most bytes of the words of data.
const LONGEST_VALUE: usize = 64;

/// Puts what a request says at the end, in one line of at most some 80 characters without its line end, as `GET DEVICE_INFO`
/// or `SET DMX_START_ADDRESS: 101`. Bytes that aren't a valid frame are named as such.
#[tactic(auto, using(crate::proofs::Plainness::plain_shown))]
pub fn put_request_words(
    out: &mut Vec<u8>,
    bytes: &[u8],
    known: &Known<'_>,
) -> Result<(), AllocError>
    ensures plain { OnOk result ((own : List ℕ) × IsPlain own × (out.new.items ≡ out.old.items ++ own)) }
{
    let mut text = String::new(*out.allocator());
    match decode_view(bytes) {
        Ok(frame) => put_request(&mut text, &frame, &known.at(frame.dst))?,
        Err(error) => put_no_frame(&mut text, error)?,
    }
    put_shown(out, text.as_bytes())
}

/// Puts what a reply says at the end, in one line of at most some 80 characters without its line end, as `ACK`,
/// `ACK_TIMER 5.0 s` or `NACK: data out of range`. Bytes that are neither a valid frame nor an answer to discovery are named as
/// such.
#[tactic(auto, using(crate::proofs::Plainness::plain_shown))]
pub fn put_reply_words(out: &mut Vec<u8>, bytes: &[u8], known: &Known<'_>) -> Result<(), AllocError>
    ensures plain { OnOk result ((own : List ℕ) × IsPlain own × (out.new.items ≡ out.old.items ++ own)) }
{
    let mut text = String::new(*out.allocator());
    match decode_view(bytes) {
        Ok(frame) => put_reply(&mut text, &frame, &known.at(frame.src))?,
        Err(error) => match branch_uid(bytes) {
            Some(uid) => write!(text, "{uid}")?,
            None => put_no_frame(&mut text, error)?,
        },
    }
    put_shown(out, text.as_bytes())
}

fn put_no_frame(text: &mut String, error: FrameError) -> Result<(), AllocError> {
    let cause = cause_of(error);
    write!(text, "no frame: {cause}")
}

fn put_request(
    text: &mut String,
    frame: &FrameView<'_>,
    known: &Facts<'_>,
) -> Result<(), AllocError> {
    put_class(text, frame.class)?;
    put_subject(text, frame, known)?;
    match Class::of(frame.class) {
        Some(_) => put_short_value(text, frame, known),
        None => Ok(()),
    }
}

/// A frame with a command class that the standard doesn't have is said as a request is.
fn put_reply(
    text: &mut String,
    frame: &FrameView<'_>,
    known: &Facts<'_>,
) -> Result<(), AllocError> {
    if Class::of(frame.class).is_none() {
        return put_request(text, frame, known);
    }
    match (frame.port, frame.body) {
        (ACK, _) => {
            text.push_str("ACK")?;
            put_subject(text, frame, known)?;
            put_short_value(text, frame, known)
        }
        (NACK_REASON, [a, b]) => {
            let code = u16::from_be_bytes([*a, *b]);
            match nack_reason(code) {
                Some(reason) => write!(text, "NACK: {reason}"),
                None => write!(text, "NACK: reason {code:04X}"),
            }
        }
        _ => put_response_type(text, frame.port, frame.body),
    }
}

/// The parameter, and the sub-device if it isn't the root.
fn put_subject(
    text: &mut String,
    frame: &FrameView<'_>,
    known: &Facts<'_>,
) -> Result<(), AllocError> {
    let pid = frame.pid;
    text.push(' ')?;
    match (parameter(pid), known.parameter(pid)) {
        (Some(name), _) => text.push_str(name)?,
        (None, Some(def)) => put_quoted(text, def.name)?,
        (None, None) => write!(text, "{pid:04X}")?,
    }
    if frame.sub == ROOT_DEVICE {
        return Ok(());
    }
    text.push_str(", ")?;
    put_place(text, frame.sub)
}

/// A colon and the data, if there are any.
fn put_short_value(
    text: &mut String,
    frame: &FrameView<'_>,
    known: &Facts<'_>,
) -> Result<(), AllocError> {
    let data = frame.body;
    let form = match layout_of(frame.class, frame.pid) {
        Some(Layout(_, form)) => form,
        None => Form::Nothing,
    };
    if data.is_empty() && !matches!(form, Form::List(_)) {
        return Ok(());
    }
    let form = match form {
        Form::InShort(_, record) => Form::Fields(record),
        form => form,
    };
    let mut value = String::new(*text.allocator());
    put_own(&mut value, "", frame.class, frame.pid, data, known)?;
    if value.is_empty() {
        put_in_short(&mut value, form, data, known)?;
    }
    if value.len() > LONGEST_VALUE {
        let slots = data.len();
        return write!(text, ": {slots} slots of data");
    }
    write!(text, ": {value}")
}

/// The data in a few words: of a list how many entries there are.
fn put_in_short(
    text: &mut String,
    form: Form,
    data: &[u8],
    known: &Facts<'_>,
) -> Result<(), AllocError> {
    match form {
        Form::List(list) => put_count_of(text, list, data),
        form => put_value(text, Layout("", form), data, known),
    }
}
