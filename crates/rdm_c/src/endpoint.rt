//! What stands behind a handle, and what it does for C.

pub(crate) mod collector;
pub(crate) mod firmware;
pub(crate) mod queue;
pub(crate) mod responder;
pub(crate) mod saving;
pub(crate) mod search;

use crate::running_search::RunningSearch;
use rdm_collector::DeviceCollector;
use rdm_frame::Wire;
use rdm_responder::Responder;

/// A responder, and the room for the bytes of its replies.
#[derive(Drop)]
pub struct RunningResponder {
    /// The device on the bus.
    pub(crate) responder: Responder,
    /// Where each reply is written first.
    pub(crate) wire: Wire,
}

/// What stands behind a handle.
#[derive(Drop)]
pub enum Endpoint {
    /// A device on the bus.
    Responder(RunningResponder),
    /// A controller that collects the messages of a device, whatever response types its answers have.
    Collector(DeviceCollector),
    /// A controller that finds the fixtures of its line.
    Searcher(RunningSearch),
}
