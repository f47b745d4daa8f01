//! What happens between the responder and the rest of the fixture: jobs, their reports, and changes at its panel.

ghost use Rattle.std.specs.Prelude.{◌≡◌, OnOk, if◌then◌else◌};
ghost use Rattle.rdm_chart.specs.declared.arrow.Kind.TheVariants as kind;
ghost use Rattle.rdm_chart.specs.Arrows.{kind_told, report_kind};
ghost use Rattle.rdm_chart.specs.Drawings.{kind_of_passage, IsOneMore};

use crate::arrow::{Arrow, Passage};
use crate::cast::Party;
use crate::drawing::{Drawing, Label};
use crate::layout::RESPONDER_X;
use crate::style::Class;
use crate::transaction::words_class;
use rdm_params::Outcome;
use rdm_trace::JobName;
use std::alloc::{AllocError, Global};

/// Draws the start of a job, below the reply to the command that starts it.
pub(crate) fn draw_job(drawing: &mut Drawing, alloc: Global, job: JobName) -> Result<(), AllocError>
    ensures { OnOk result (IsOneMore kind.Whole drawing.old drawing.new) }
{
    let number = job.number;
    let words = format!(in alloc; "job {number}")?;
    let arrow = Arrow {
        from: RESPONDER_X,
        to: drawing.cast.x_of(Party::Worker(job.worker)),
        passage: Passage::Whole,
    };
    draw_words(drawing, alloc, arrow, Class::Words, words.as_str())
}

/// Draws the report of a job, by how it ended.
pub(crate) fn draw_report(
    drawing: &mut Drawing,
    alloc: Global,
    job: JobName,
    outcome: Outcome,
    words: &str,
) -> Result<(), AllocError>
    ensures { OnOk result (IsOneMore (report_kind outcome) drawing.old drawing.new) }
{
    let failed = has_failed(outcome);
    let arrow = Arrow {
        from: drawing.cast.x_of(Party::Worker(job.worker)),
        to: RESPONDER_X,
        passage: Passage::told(failed),
    };
    draw_words(drawing, alloc, arrow, words_class(failed), words)
}

/// Whether a job that ended so has failed.
fn has_failed(outcome: Outcome) -> bool
    ensures { kind_told result ≡ report_kind outcome }
{
    match outcome {
        Outcome::Failed { .. } => true,
        Outcome::Done | Outcome::Reading(_) => false,
    }
}

/// Draws a change at the panel: one that is rejected ends in a cross before the responder.
pub(crate) fn draw_change(
    drawing: &mut Drawing,
    alloc: Global,
    refused: bool,
    words: &str,
) -> Result<(), AllocError>
    ensures { OnOk result (IsOneMore (if refused then kind.Lost else kind.Whole) drawing.old drawing.new) }
{
    let passage = if refused {
        Passage::Refused
    } else {
        Passage::Whole
    };
    let arrow = Arrow {
        from: drawing.cast.x_of(Party::Panel),
        to: RESPONDER_X,
        passage,
    };
    draw_words(drawing, alloc, arrow, Class::Words, words)
}

fn draw_words(
    drawing: &mut Drawing,
    alloc: Global,
    arrow: Arrow,
    class: Class,
    words: &str,
) -> Result<(), AllocError>
    ensures { OnOk result (IsOneMore (kind_of_passage arrow.passage) drawing.old drawing.new) }
{
    let label = Label {
        class,
        words,
        note: "",
    };
    drawing.draw_arrow(alloc, arrow, label)
}
