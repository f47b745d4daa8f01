//! Who takes part in a trace.

use crate::layout::{CONTROLLER_X, Px, RESPONDER_X, WORK_STEP, WORK_X};
use rdm_trace::Line;
use std::alloc::{AllocError, Global};

/// Someone with a lifeline, in the order from left to right.
#[derive(Clone, Copy, PartialEq, Eq, PartialOrd, Ord)]
pub(crate) enum Party {
    Controller,
    Responder,
    Worker(u8),
    Panel,
}

/// Those who take part, from left to right.
#[derive(Drop)]
pub(crate) struct Cast {
    parties: Vec<Party>,
}

impl Cast {
    /// The controller, the responder, and those whom the lines name.
    pub(crate) fn of(alloc: Global, lines: &[Line]) -> Result<Self, AllocError> {
        let mut parties = Vec::new(alloc);
        parties.push(Party::Controller)?;
        parties.push(Party::Responder)?;
        for line in lines {
            if let Some(party) = named_by(line)
                && !parties.contains(&party)
            {
                parties.push(party)?;
            }
        }
        parties.sort()?;
        Ok(Cast { parties })
    }

    /// Those who take part, from left to right.
    pub(crate) fn parties(&self) -> &[Party] {
        self.parties.as_slice()
    }

    /// The lifeline of someone who takes part.
    pub(crate) fn x_of(&self, party: Party) -> Px {
        match self.parties.iter().position(|p| *p == party) {
            Some(place) => x_at(place),
            None => RESPONDER_X,
        }
    }

    /// The last lifeline.
    pub(crate) fn last_x(&self) -> Px {
        x_at(self.parties.len().saturating_sub(1))
    }
}

/// Who but the controller and the responder takes part in what a line says.
fn named_by(line: &Line) -> Option<Party> {
    match line {
        Line::Job(job) | Line::Arrive { job, .. } => Some(Party::Worker(job.worker)),
        Line::Panel { .. } => Some(Party::Panel),
        Line::Send { .. }
        | Line::Reply(_)
        | Line::Heard(_)
        | Line::Found(_)
        | Line::Message(_)
        | Line::Time { .. }
        | Line::End => None,
    }
}

/// The lifeline at a place, counted from 0 on the left.
fn x_at(place: usize) -> Px {
    match place {
        0 => CONTROLLER_X,
        1 => RESPONDER_X,
        _ => {
            let steps = (place as u64).saturating_sub(2);
            WORK_X.saturating_add(steps.saturating_mul(WORK_STEP))
        }
    }
}
