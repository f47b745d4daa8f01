//! What a controller asks for of what waits for it.

ghost use Rattle.std.specs.Prelude.{◌≡◌};
ghost use Rattle.rdm_commands.specs.Jobs.Asks.{ask_of};

use rdm_frame::standard::{ADVISORY, GET_LAST_MESSAGE, WARNING};

/// The status type that QUEUED_MESSAGE and STATUS_MESSAGES name (E1.20 sections 10.3.1 and 10.3.2, table A-4).
#[derive(Clone, Copy, Debug, PartialEq, Eq)]
pub enum Ask {
    /// STATUS_NONE: no status entry. QUEUED_MESSAGE can't ask for it.
    None,
    /// STATUS_GET_LAST_MESSAGE: the last message again.
    Last,
    /// STATUS_ADVISORY: entries of every severity.
    Advisory,
    /// STATUS_WARNING: warnings and errors.
    Warning,
    /// STATUS_ERROR: errors alone.
    Error,
}

impl Ask {
    /// What this status type asks for: 00 to 04, from table A-4. There is no type above.
    pub(crate) fn of(status_type: u8) -> Ask
        ensures { result ≡ ask_of status_type }
    {
        match status_type {
            0x00 => Ask::None,
            GET_LAST_MESSAGE => Ask::Last,
            ADVISORY => Ask::Advisory,
            WARNING => Ask::Warning,
            _ => Ask::Error,
        }
    }
}
