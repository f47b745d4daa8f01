//! What the status of a device tells.

ghost use Rattle.std.specs.Prelude.{◌≡◌};
ghost use Rattle.rdm_frame.specs.Severities.{rank_of, severity_code, severity_in, severity_name};

use crate::standard::{ADVISORY, ERROR, WARNING};

/// How bad the thing is that a status entry tells, and whether it is over (E1.20 table A-4).
#[derive(Clone, Copy, Debug, PartialEq, Eq)]
pub enum Severity {
    /// STATUS_ADVISORY.
    Advisory,
    /// STATUS_WARNING.
    Warning,
    /// STATUS_ERROR.
    Error,
    /// STATUS_ADVISORY_CLEARED.
    AdvisoryCleared,
    /// STATUS_WARNING_CLEARED.
    WarningCleared,
    /// STATUS_ERROR_CLEARED.
    ErrorCleared,
}

impl Severity {
    /// The rank: 2 for an advisory, 3 for a warning, 4 for an error. A cleared form ranks with its base form.
    pub fn rank(self) -> u8
        ensures { result ≡ rank_of self }
    {
        match self {
            Severity::Advisory | Severity::AdvisoryCleared => 2,
            Severity::Warning | Severity::WarningCleared => 3,
            Severity::Error | Severity::ErrorCleared => 4,
        }
    }

    /// The code, from table A-4.
    pub fn code(self) -> u8
        ensures { result ≡ severity_code self }
    {
        match self {
            Severity::Advisory => ADVISORY,
            Severity::Warning => WARNING,
            Severity::Error => ERROR,
            Severity::AdvisoryCleared => 0x12,
            Severity::WarningCleared => 0x13,
            Severity::ErrorCleared => 0x14,
        }
    }

    /// The severity of a code (table A-4), or `None` if none has this code.
    pub fn of(code: u8) -> Option<Severity>
        ensures { result ≡ severity_in code }
    {
        match code {
            ADVISORY => Some(Severity::Advisory),
            WARNING => Some(Severity::Warning),
            ERROR => Some(Severity::Error),
            0x12 => Some(Severity::AdvisoryCleared),
            0x13 => Some(Severity::WarningCleared),
            0x14 => Some(Severity::ErrorCleared),
            _ => None,
        }
    }

    /// In words, such as `advisory cleared`.
    pub fn name(self) -> &'static str
        ensures { result.now ≡ severity_name self }
    {
        match self {
            Severity::Advisory => "advisory",
            Severity::Warning => "warning",
            Severity::Error => "error",
            Severity::AdvisoryCleared => "advisory cleared",
            Severity::WarningCleared => "warning cleared",
            Severity::ErrorCleared => "error cleared",
        }
    }
}

/// A status entry: what STATUS_MESSAGES tells of a failed job (E1.20 section 10.3.2).
#[derive(Clone, Copy, Debug, PartialEq, Eq)]
pub struct Entry {
    /// The sub-device, or 0 for the root.
    pub sub: u16,
    /// How bad it is.
    pub severity: Severity,
    /// The status ID (section 10.3.3).
    pub id: u16,
    /// The first value that the status text names.
    pub v1: u16,
    /// The second value that the status text names.
    pub v2: u16,
}
