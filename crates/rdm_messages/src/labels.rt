//! The labels of messages: what they are about.

/// From the host: which parameters the interface has. To the host: these.
pub const PARAMETERS: u8 = 3;

/// To the host: bytes that came from the line, behind a status byte.
pub const FROM_LINE: u8 = 5;

/// From the host: an RDM request for the line.
pub const REQUEST: u8 = 7;

/// From the host: which serial number the interface has. To the host: this.
pub const SERIAL_NUMBER: u8 = 10;

/// From the host: an RDM discovery request for the line, DISC_UNIQUE_BRANCH, whose answers have no header (E1.20 section 7.5).
pub const DISCOVERY: u8 = 11;

/// To the host: nothing came from the line, or nothing more.
pub const TIMEOUT: u8 = 12;
