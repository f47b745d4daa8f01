//! Why a survey can't be read.

use crate::Field;
use crate::saved_text::key_of;
use rdm_frame::Uid;
use std::alloc::{AllocError, AllocFailed};
use std::fmt;
use thiserror::Error;

/// Why a survey that was kept can't be read. Fixtures are numbered from 1, in their order in the text.
#[derive(Clone, Copy, Debug, PartialEq, Eq, Error)]
pub enum ReadError {
    /// There is no memory for it.
    #[error("out of memory")]
    OutOfMemory,
    /// The text isn't UTF-8, or it isn't JSON.
    #[error("this isn't JSON")]
    NotJson,
    /// The document isn't an object in which `format` is 1.
    #[error("this isn't a survey in format 1")]
    OtherFormat,
    /// There is no array `fixtures`.
    #[error("there is no list of fixtures")]
    NoFixtures,
    /// The fixture with that number has no `uid`, or what stands there isn't a UID.
    #[error("fixture {0} has no UID")]
    NoUid(usize),
    /// The fixture with that number has a wrong value there.
    #[error("fixture {0} has a wrong value for {1}")]
    WrongValue(usize, Field),
    /// The fixture with that number has a wrong value in its sub-devices, or a sub-device twice.
    #[error("fixture {0} has a wrong value for sub_devices")]
    WrongSubDevices(usize),
    /// A UID stands twice.
    #[error("{0} appears twice")]
    Twice(Uid),
}

impl From<AllocError> for ReadError {
    ghost use Rattle.std.specs.Prelude.{◌≡◌};
    ghost use Rattle.rdm_compare.specs.declared.read_error.ReadError.TheVariants.{OutOfMemory};

    ghost from_gives = { λ _ e. e ≡ OutOfMemory };

    fn from(_error: AllocError) -> ReadError {
        ReadError::OutOfMemory
    }
}

impl<T: Drop> From<AllocFailed<T>> for ReadError {
    ghost use Rattle.std.specs.Prelude.{◌≡◌};
    ghost use Rattle.rdm_compare.specs.declared.read_error.ReadError.TheVariants.{OutOfMemory};

    ghost from_gives = { λ _ e. e ≡ OutOfMemory };

    fn from(_error: AllocFailed<T>) -> ReadError {
        ReadError::OutOfMemory
    }
}

/// A field is shown as its key in a document.
impl fmt::Display for Field {
    fn fmt<W: fmt::Write>(&self, f: &mut fmt::Formatter<W>) -> fmt::Result {
        f.write_str(key_of(*self))
    }
}
