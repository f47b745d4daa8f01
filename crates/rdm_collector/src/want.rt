//! Which messages a collector wants.

ghost use Rattle.std.specs.Prelude.{◌≡◌};
ghost use Rattle.rdm_collector.specs.Requests.{type_of};

use rdm_frame::standard::{ADVISORY, ERROR, WARNING};

/// The least severity of the status entries that a collector wants, when no message waits (E1.20 section 10.3.1).
#[derive(Clone, Copy, Debug, PartialEq, Eq)]
pub enum Want {
    /// STATUS_ADVISORY: entries of every severity.
    Advisory,
    /// STATUS_WARNING: warnings and errors.
    Warning,
    /// STATUS_ERROR: errors alone.
    Error,
}

/// The status type of a request that fetches the next message (E1.20 table A-4).
pub(crate) fn type_of(want: Want) -> u8
    ensures { result ≡ type_of want }
{
    match want {
        Want::Advisory => ADVISORY,
        Want::Warning => WARNING,
        Want::Error => ERROR,
    }
}
