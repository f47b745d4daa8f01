//! An answer to a controller that collects.

use rdm_params::Message;

/// An answer to QUEUED_MESSAGE or STATUS_MESSAGES (E1.20 sections 10.3.1 and 10.3.2).
#[derive(Debug, Drop, PartialEq, Eq)]
pub struct Dispensed {
    /// The message.
    pub message: Message,
    /// Whether this is an answer of its own, and not the last one again.
    pub fresh: bool,
}
