//! What is on the wire after a request.

/// What is on the wire after a request.
#[derive(Clone, Copy, Debug, PartialEq, Eq)]
pub enum OnWire {
    /// No device answered.
    Nothing,
    /// One device answered: its reply.
    Reply,
    /// Several answered at once, as only DISC_UNIQUE_BRANCH lets them (E1.20 section 7.5).
    Collision,
}
