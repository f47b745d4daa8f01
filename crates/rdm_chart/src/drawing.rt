//! A chart that is being drawn, from the top downwards.

ghost use Rattle.std.specs.Prelude.{◌≡◌, ◌++◌, [], OnOk, IfOk};
ghost use Rattle.rdm_frame.specs.declared.fault.Fault.TheVariants.{None as NoFault};
ghost use Rattle.rdm_chart.specs.Arrows.{kinds_of, fault_behind};
ghost use Rattle.rdm_chart.specs.Drawings.{kinds_drawn, kind_of_passage, IsStill, IsOneMore};

use crate::arrow::{Arrow, Shaft};
use crate::cast::Cast;
use crate::heads::draw_heads;
use crate::layout::{
    BASE, BELOW_ARROW, CONTROLLER_X, GAP, HEAD_HEIGHT, LINE_HEIGHT, PADDING, Px, RESPONDER_X, TOP,
    WORK_X,
};
use crate::lettering::broken_lines;
use crate::recorded::draw_message;
use crate::style::Class;
use crate::svg::Svg;
use crate::title::Addressed;
use crate::transaction::{draw_found, draw_heard, draw_reply, draw_request, draw_silence};
use crate::wording::Saying;
use crate::work::{draw_change, draw_job, draw_report};
use rdm_frame::Fault;
use rdm_trace::Line;
use rdm_words::{Before, Known};
use std::alloc::{AllocError, Global};

/// A chart that is drawn so far.
#[derive(Drop)]
pub(crate) struct Drawing {
    /// Those who take part.
    pub(crate) cast: Cast,
    /// Whom the requests are for.
    pub(crate) addressed: Addressed,
    /// What lies behind the lifelines.
    pub(crate) back: Svg,
    /// What lies before them.
    pub(crate) front: Svg,
    /// The arrows, each without what stands at its end: that lies before the lifelines too.
    pub(crate) arrows: Vec<Shaft>,
    /// How far the chart reaches.
    pub(crate) y: Px,
    /// How far the lifelines reach, once they have ended.
    pub(crate) lives_to: Option<Px>,
    /// How many transactions are drawn.
    pub(crate) transactions: u64,
    /// What goes wrong with the last of them.
    pub(crate) fault: Fault,
    /// When the next line happened, in milliseconds, if it is told.
    pub(crate) time: Option<u64>,
    /// How many messages the controller has recorded.
    pub(crate) recorded: u64,
    /// How many of them are listed below the lifelines.
    pub(crate) listed: u64,
}

/// The words of an arrow: how they look, and a remark below them, which may be empty.
#[derive(Clone, Copy)]
pub(crate) struct Label<'a> {
    pub(crate) class: Class,
    pub(crate) words: &'a str,
    pub(crate) note: &'a str,
}

impl Drawing {
    /// The heads of those who take part.
    pub(crate) fn new(alloc: Global, cast: Cast, addressed: Addressed) -> Result<Self, AllocError>
        ensures arrows { IfOk result (λ drawing. kinds_drawn drawing ≡ []) }
        ensures fault { IfOk result (λ drawing. drawing.fault ≡ NoFault) }
    {
        let mut front = Svg::new(alloc);
        draw_heads(alloc, &mut front, &cast, TOP)?;
        Ok(Drawing {
            cast,
            addressed,
            back: Svg::new(alloc),
            front,
            arrows: Vec::new(alloc),
            y: TOP + HEAD_HEIGHT + GAP,
            lives_to: None,
            transactions: 0,
            fault: Fault::None,
            time: None,
            recorded: 0,
            listed: 0,
        })
    }

    /// Draws what a line says, by what went before it. The time of a line that is no arrow isn't drawn.
    pub(crate) fn draw(
        &mut self,
        alloc: Global,
        before: &Before,
        line: &Line,
        known: &Known<'_>,
    ) -> Result<(), AllocError>
        ensures arrows { OnOk result (kinds_drawn self.new ≡ kinds_drawn self.old ++ kinds_of self.old.fault line.now) }
        ensures fault { OnOk result (self.new.fault ≡ fault_behind line.now self.old.fault) }
    {
        let saying = Saying {
            alloc,
            before,
            line,
            known,
        };
        match line {
            Line::Send { bytes, fault } => {
                let words = saying.request(bytes.as_slice())?;
                draw_request(self, alloc, words.as_str(), *fault)
            }
            Line::Reply(Some(bytes)) => {
                let words = saying.reply(bytes.as_slice())?;
                draw_reply(self, alloc, bytes.as_slice(), words.as_str())
            }
            Line::Reply(None) => draw_silence(self),
            Line::Job(job) => draw_job(self, alloc, *job),
            Line::Heard(heard) => draw_heard(self, alloc, before, *heard),
            Line::Found(uid) => draw_found(self, alloc, *uid),
            Line::Arrive { job, outcome } => {
                let words = saying.line()?;
                draw_report(self, alloc, *job, *outcome, words.as_str())
            }
            Line::Panel { refused, .. } => {
                let words = saying.line()?;
                draw_change(self, alloc, *refused, words.as_str())
            }
            Line::Message(_) => {
                let words = saying.line()?;
                draw_message(self, alloc, words.as_str())
            }
            Line::Time { millis } => {
                self.time = Some(*millis);
                Ok(())
            }
            Line::End => Ok(()),
        }
    }

    /// Goes down by so much.
    pub(crate) fn skip(&mut self, height: Px)
        ensures { IsStill self.old self.new }
    {
        self.y = self.y.saturating_add(height);
    }

    /// Draws an arrow below what is drawn, with its label above it.
    pub(crate) fn draw_arrow(
        &mut self,
        alloc: Global,
        arrow: Arrow,
        label: Label<'_>,
    ) -> Result<(), AllocError>
        ensures { OnOk result (IsOneMore (kind_of_passage arrow.passage) self.old self.new) }
    {
        let left = arrow.left();
        let x = left.saturating_add(PADDING);
        self.skip(GAP);
        self.draw_time(alloc, arrow)?;
        let lines = broken_lines(alloc, label.words, label.class.weight(), room_beside(left))?;
        self.draw_lines(label.class, x, lines.as_slice())?;
        if !label.note.is_empty() {
            self.draw_text(Class::Note, x, label.note)?;
        }
        self.skip(arrow.room_above());
        arrow.draw(&mut self.arrows, &mut self.front, self.y)?;
        self.skip(BELOW_ARROW);
        Ok(())
    }

    /// Draws when an arrow's message was sent, in the first line of its words, if that is told.
    fn draw_time(&mut self, alloc: Global, arrow: Arrow) -> Result<(), AllocError>
        ensures { OnOk result (IsStill self.old self.new) }
    {
        let Some(millis) = self.time else {
            return Ok(());
        };
        self.time = None;
        let (seconds, rest) = (millis / 1000, millis % 1000);
        let text = format!(in alloc; "{seconds}.{rest:03} s")?;
        let (class, x) = arrow.time_place();
        let base = self.y.saturating_add(BASE);
        self.front.text(class, x, base, text.as_str())
    }

    /// Draws lines of text below what is drawn.
    pub(crate) fn draw_lines(
        &mut self,
        class: Class,
        x: Px,
        lines: &[String],
    ) -> Result<(), AllocError>
        ensures { OnOk result (IsStill self.old self.new) }
    {
        for line in lines {
            self.draw_text(class, x, line.as_str())?;
        }
        Ok(())
    }

    /// Draws a line of text below what is drawn.
    pub(crate) fn draw_text(&mut self, class: Class, x: Px, words: &str) -> Result<(), AllocError>
        ensures { OnOk result (IsStill self.old self.new) }
    {
        self.front
            .text(class, x, self.y.saturating_add(BASE), words)?;
        self.skip(LINE_HEIGHT);
        Ok(())
    }
}

/// How much room words have between a lifeline and the next.
fn room_beside(left: Px) -> Px {
    if left == CONTROLLER_X {
        RESPONDER_X - CONTROLLER_X - 2 * PADDING
    } else {
        WORK_X - RESPONDER_X - 2 * PADDING
    }
}
