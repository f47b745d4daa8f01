//! Why a value isn't placed.

use thiserror::Error;

/// Why the firmware can't place a value. The first reason that applies is given, in this order.
#[derive(Clone, Copy, Debug, PartialEq, Eq, Error)]
pub enum PlaceError {
    /// There is no such sub-device.
    #[error("no such device")]
    NoDevice,
    /// The device stores no value of this parameter.
    #[error("no such value")]
    NoValue,
    /// The data have another length than the value.
    #[error("wrong length")]
    Length,
    /// No GET may reply the value, or there is no sensor of this number.
    #[error("out of range")]
    OutOfRange,
}
