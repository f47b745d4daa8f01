//! What the header of an image says.

/// How many bytes stand before the payload.
pub const HEADER_BYTES: usize = 12;

/// The most bytes that a payload may have.
pub const MOST_PAYLOAD: usize = 65535;

/// What the header of an image says. The payload are the `length` bytes behind the header.
#[derive(Clone, Copy, Debug, PartialEq, Eq)]
pub struct Image {
    /// Of two images the newer has the next number, modulo 65536.
    pub counter: u16,
    /// How many bytes the payload has.
    pub length: u16,
}
