//! Transactions on the bus: a request, its reply, and what the controller took this for.

ghost use Rattle.std.specs.Prelude.{◌≡◌, ◌++◌, ◌∷◌, [], OnOk};
ghost use Rattle.rdm_frame.specs.Reading.{frame_in};
ghost use Rattle.rdm_chart.specs.Arrows.{is_nack, is_response, reply_kind, request_kind};
ghost use Rattle.rdm_chart.specs.Drawings.{kinds_drawn, kind_of_passage, IsStill, IsOneMore};

use crate::arrow::{Arrow, Passage};
use crate::drawing::{Drawing, Label};
use crate::heads::draw_heads;
use crate::layout::{
    BASE, BELOW_ARROW, CONTROLLER_X, GAP, HEAD_HEIGHT, HEADS_EVERY, LINE_HEIGHT, MARGIN, PADDING,
    Px, RESPONDER_X, TAG_HEIGHT, TAG_WIDTH,
};
use crate::page::width_of;
use crate::shape::Area;
use crate::style::Class;
use rdm_collector::Heard;
use rdm_frame::standard::{
    DISCOVERY_COMMAND_RESPONSE, GET_COMMAND_RESPONSE, NACK_REASON, SET_COMMAND_RESPONSE,
};
use rdm_frame::{Fault, Uid, decode_view};
use rdm_words::Before;
use std::alloc::{AllocError, Global};

/// Draws a request below what is drawn, as the beginning of a transaction.
pub(crate) fn draw_request(
    drawing: &mut Drawing,
    alloc: Global,
    words: &str,
    fault: Fault,
) -> Result<(), AllocError>
    ensures arrows { OnOk result (kinds_drawn drawing.new ≡ kinds_drawn drawing.old ++ request_kind fault ∷ []) }
    ensures fault { OnOk result (drawing.new.fault ≡ fault) }
{
    begin_transaction(drawing, alloc)?;
    drawing.fault = fault;
    let passage = match fault {
        Fault::LostRequest => Passage::Lost,
        Fault::BadRequest(_, _) => Passage::Altered,
        Fault::None | Fault::LostReply | Fault::BadReply(_, _) => Passage::Whole,
    };
    let arrow = Arrow {
        from: CONTROLLER_X,
        to: RESPONDER_X,
        passage,
    };
    draw_frame(drawing, alloc, arrow, Class::Request, words)
}

/// Draws a frame on its way, with its words and what goes wrong.
fn draw_frame(
    drawing: &mut Drawing,
    alloc: Global,
    arrow: Arrow,
    class: Class,
    words: &str,
) -> Result<(), AllocError>
    ensures { OnOk result (IsOneMore (kind_of_passage arrow.passage) drawing.old drawing.new) }
{
    let note = note_of(alloc, drawing.fault, arrow.passage)?;
    let note = note.as_str();
    drawing.draw_arrow(alloc, arrow, Label { class, words, note })
}

/// Draws a line above a transaction, and its number, counted from 0 as transaction numbers are.
fn begin_transaction(drawing: &mut Drawing, alloc: Global) -> Result<(), AllocError>
    ensures { OnOk result (IsStill drawing.old drawing.new) }
{
    let number = drawing.transactions;
    if number > 0 && number.is_multiple_of(HEADS_EVERY) {
        drawing.skip(2 * GAP);
        draw_heads(alloc, &mut drawing.front, &drawing.cast, drawing.y)?;
        drawing.skip(HEAD_HEIGHT);
    }
    drawing.skip(GAP);
    let right = width_of(&drawing.cast).saturating_sub(MARGIN);
    drawing.back.across(Class::Rule, MARGIN, right, drawing.y)?;
    let text = format!(in alloc; "{number}")?;
    let base = drawing.y.saturating_add(GAP + BASE);
    drawing
        .front
        .text(Class::Count, MARGIN + GAP, base, text.as_str())?;
    drawing.transactions = number.saturating_add(1);
    Ok(())
}

/// What goes wrong, in words, or nothing.
fn note_of(alloc: Global, fault: Fault, passage: Passage) -> Result<String, AllocError> {
    match (passage, fault) {
        (Passage::Lost, _) => String::from_str(alloc, "lost on the way"),
        (Passage::Altered, Fault::BadRequest(slot, raise) | Fault::BadReply(slot, raise)) => {
            format!(in alloc; "altered on the way: slot {slot} raised by {raise}")
        }
        _ => Ok(String::new(alloc)),
    }
}

/// Draws a reply of these bytes below what is drawn.
pub(crate) fn draw_reply(
    drawing: &mut Drawing,
    alloc: Global,
    bytes: &[u8],
    words: &str,
) -> Result<(), AllocError>
    ensures { OnOk result (IsOneMore (reply_kind drawing.old.fault bytes.now) drawing.old drawing.new) }
{
    let negative = is_nack(bytes);
    let passage = match drawing.fault {
        Fault::LostReply => Passage::Lost,
        Fault::BadReply(_, _) => Passage::Altered,
        Fault::None | Fault::LostRequest | Fault::BadRequest(_, _) => Passage::told(negative),
    };
    let arrow = Arrow {
        from: RESPONDER_X,
        to: CONTROLLER_X,
        passage,
    };
    draw_frame(drawing, alloc, arrow, words_class(negative), words)
}

/// How words look, by whether they say that something wasn't done.
pub(crate) fn words_class(negative: bool) -> Class {
    if negative {
        Class::NegativeWords
    } else {
        Class::Words
    }
}

/// Whether bytes are a NACK: a response of the type NACK_REASON.
fn is_nack(bytes: &[u8]) -> bool
    ensures { result ≡ is_nack (frame_in bytes.now) }
{
    match decode_view(bytes) {
        Ok(frame) => is_response(frame.class) && frame.port == NACK_REASON,
        Err(_) => false,
    }
}

/// Whether a command class is that of a response.
fn is_response(class: u8) -> bool
    ensures { result ≡ is_response class }
{
    matches!(
        class,
        DISCOVERY_COMMAND_RESPONSE | GET_COMMAND_RESPONSE | SET_COMMAND_RESPONSE
    )
}

/// A remark that a device which heard the request doesn't reply.
pub(crate) fn draw_silence(drawing: &mut Drawing) -> Result<(), AllocError>
    ensures { OnOk result (IsStill drawing.old drawing.new) }
{
    drawing.time = None;
    if drawing.fault == Fault::LostRequest {
        return Ok(());
    }
    drawing.skip(GAP);
    drawing.draw_text(Class::NoteBefore, RESPONDER_X - PADDING, "no reply")?;
    drawing.skip(BELOW_ARROW);
    Ok(())
}

/// Draws what the controller took a reply for, at its side.
pub(crate) fn draw_heard(
    drawing: &mut Drawing,
    alloc: Global,
    before: &Before,
    heard: Option<Heard>,
) -> Result<(), AllocError>
    ensures { OnOk result (IsStill drawing.old drawing.new) }
{
    drawing.time = None;
    match heard {
        Some(Heard::Message) => draw_recorded(drawing, alloc),
        // A device that answers a search isn't ignored.
        Some(Heard::Ignored) if before.answerer().is_some() => Ok(()),
        Some(Heard::Ignored) => {
            let base = drawing.y.saturating_sub(2);
            drawing
                .front
                .text(Class::NoteBefore, CONTROLLER_X - PADDING, base, "ignored")
        }
        Some(Heard::Reply) | None => Ok(()),
    }
}

/// Draws a tag that says which message is recorded.
fn draw_recorded(drawing: &mut Drawing, alloc: Global) -> Result<(), AllocError>
    ensures { OnOk result (IsStill drawing.old drawing.new) }
{
    drawing.recorded = drawing.recorded.saturating_add(1);
    let number = drawing.recorded;
    let name = format!(in alloc; "recorded {number}")?;
    draw_tag(drawing, name.as_str())
}

/// Draws which fixture the controller finds, at its side.
pub(crate) fn draw_found(drawing: &mut Drawing, alloc: Global, uid: Uid) -> Result<(), AllocError>
    ensures { OnOk result (IsStill drawing.old drawing.new) }
{
    drawing.time = None;
    draw_tag(drawing, "found")?;
    drawing.skip(GAP / 2);
    let text = format!(in alloc; "{uid}")?;
    drawing.draw_text(Class::NoteBefore, CONTROLLER_X - PADDING, text.as_str())
}

/// Draws a tag with this name, beside what the controller hears.
fn draw_tag(drawing: &mut Drawing, name: &str) -> Result<(), AllocError>
    ensures { OnOk result (IsStill drawing.old drawing.new) }
{
    let area = Area {
        x: CONTROLLER_X - GAP - TAG_WIDTH,
        y: drawing.y.saturating_sub(BELOW_ARROW + TAG_HEIGHT / 2),
        width: TAG_WIDTH,
        height: TAG_HEIGHT,
    };
    drawing.front.area(Class::Tag, area, 4)?;
    let centre = CONTROLLER_X - GAP - TAG_WIDTH / 2;
    let base = area.y.saturating_add(LINE_HEIGHT - 2);
    drawing.front.text(Class::TagName, centre, base, name)
}
