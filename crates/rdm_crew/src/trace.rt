//! What has happened in a run.

ghost use Rattle.std.specs.Prelude.{◌≡◌};

use rdm_bus::{Event, System};
use rdm_lane::Settled;
use rdm_params::Message;
use rdm_responder::Report;
use std::marker::Model;

/// What is left of a run that has ended: the bus, and the lists of the report lane.
#[derive(Drop)]
pub(crate) struct Ended {
    pub(crate) system: System,
    pub(crate) reports: Settled<Report>,
}

/// What has happened in a run, what the controller collected, and what the workers handed over.
#[derive(Debug, Drop)]
pub struct Trace {
    system: System,
    reports: Settled<Report>,
}

impl Model for Trace {
    ghost use Rattle.rdm_crew.specs.Traces.{Traced};

    ghost Value = { Traced };

    ghost view = { λ t. record { events = t.system.trace; recorded = t.system.collector.recorded; reports = t.reports } };
}

impl Trace {
    /// What a run has come to.
    pub(crate) fn of(ended: Ended) -> Self
        ensures events { result.events ≡ ended.system.trace }
        ensures recorded { result.recorded ≡ ended.system.collector.recorded }
        ensures reports { result.reports ≡ ended.reports }
    {
        Trace {
            system: ended.system,
            reports: ended.reports,
        }
    }

    /// What has happened, in order.
    pub fn events(&self) -> &[Event]
        ensures { result.now ≡ self.now.events }
    {
        self.system.trace()
    }

    /// The messages that the controller collected, in order.
    pub fn recorded(&self) -> &[Message]
        ensures { result.now ≡ self.now.recorded }
    {
        self.system.recorded()
    }

    /// The lists of the report lane: what the bus thread took from it, reports and the closing mark of each worker, and what
    /// each worker put. The first worker's post is 0, the second's is 1.
    pub fn reports(&self) -> &Settled<Report>
        ensures { result.now ≡ self.now.reports }
    {
        &self.reports
    }
}
