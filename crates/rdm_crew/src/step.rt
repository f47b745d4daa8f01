//! The steps of a run.

use rdm_bus::Fault;
use rdm_collector::Command;

/// What is to happen next in a run.
#[derive(Debug, Drop)]
pub enum CrewStep {
    /// The controller sends a command, and this goes wrong.
    Ask(Command, Fault),
    /// The controller polls for a message, and this goes wrong.
    Collect(Fault),
    /// The report of a job arrives at the device, if one is there.
    Draw,
    /// Reports arrive until no job is outstanding. None may be there N times; the next time the run ends.
    Settle(u32),
    /// What a person changed at the panel happens at the device, if its message has room there and a change is there.
    /// None may be there N times; the next time the step ends.
    Panel(u32),
}
