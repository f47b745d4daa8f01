//! The list of the messages that the controller recorded.

ghost use Rattle.std.specs.Prelude.{OnOk};
ghost use Rattle.rdm_chart.specs.Drawings.{IsStill};

use crate::drawing::Drawing;
use crate::layout::{BASE, GAP, MARGIN};
use crate::lettering::{Weight, broken_lines};
use crate::page::width_of;
use crate::style::Class;
use std::alloc::{AllocError, Global};

/// How the words of a message begin. The heading of the list says so for all of them.
const BEGINNING: &str = "recorded: ";

/// Lists a message below the lifelines, which end there.
pub(crate) fn draw_message(
    drawing: &mut Drawing,
    alloc: Global,
    words: &str,
) -> Result<(), AllocError>
    ensures { OnOk result (IsStill drawing.old drawing.new) }
{
    drawing.time = None;
    end_lives(drawing)?;
    drawing.listed = drawing.listed.saturating_add(1);
    let number = drawing.listed;
    let count = format!(in alloc; "{number}")?;
    let base = drawing.y.saturating_add(BASE);
    drawing
        .front
        .text(Class::Count, MARGIN + GAP, base, count.as_str())?;
    let room = width_of(&drawing.cast).saturating_sub(4 * MARGIN);
    let words = words.strip_prefix(BEGINNING).unwrap_or(words);
    let lines = broken_lines(alloc, words, Weight::Regular, room)?;
    drawing.draw_lines(Class::Words, 3 * MARGIN, lines.as_slice())?;
    drawing.skip(GAP / 2);
    Ok(())
}

/// Ends the lifelines, and writes what comes below them.
fn end_lives(drawing: &mut Drawing) -> Result<(), AllocError>
    ensures { OnOk result (IsStill drawing.old drawing.new) }
{
    if drawing.lives_to.is_some() {
        return Ok(());
    }
    drawing.skip(2 * GAP);
    drawing.lives_to = Some(drawing.y);
    drawing.skip(GAP);
    drawing.draw_text(Class::Section, MARGIN, "What the controller recorded")?;
    drawing.skip(GAP);
    Ok(())
}
