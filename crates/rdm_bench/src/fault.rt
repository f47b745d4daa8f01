//! Why frames can't be heard.

ghost use Rattle.std.specs.Prelude.{◌≡◌};
ghost use Rattle.rdm_bench.specs.Faults.{code_of};

use thiserror::Error;

/// Why frames can't be heard.
#[derive(Clone, Copy, Debug, PartialEq, Eq, Error)]
pub enum Fault {
    /// Memory was refused.
    #[error("out of memory")]
    OutOfMemory,
    /// There are more than 512 sub-devices.
    #[error("too many sub-devices")]
    TooManySubs,
    /// No reports have this code.
    #[error("unknown reports")]
    UnknownReports,
}

impl Fault {
    /// Its code: 1, 2 and 3.
    pub(crate) fn code(self) -> u8
        ensures { result ≡ code_of self }
    {
        match self {
            Fault::OutOfMemory => 1,
            Fault::TooManySubs => 2,
            Fault::UnknownReports => 3,
        }
    }
}
