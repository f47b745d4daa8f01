//! What a UART tells.

/// What a UART tells.
#[derive(Clone, Copy, Debug)]
pub enum Signal {
    /// The line was low for longer than a byte is: a packet begins behind it.
    Break,
    /// A byte came.
    Byte(u8),
    /// A byte came that isn't whole, by a framing error that is no break; or one was lost, by an overrun.
    Error,
}
