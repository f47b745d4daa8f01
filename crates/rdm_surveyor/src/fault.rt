//! Why a survey stops.

use rdm_console::{AskError, AskFault, PortError};
use std::alloc::{AllocError, AllocFailed};
use thiserror::Error;

/// Why a survey of a fixture stops. What was fetched before was handed on.
#[derive(Clone, Copy, Debug, PartialEq, Eq, Error)]
pub enum SurveyFault {
    /// There is no memory for what is told.
    #[error("out of memory")]
    OutOfMemory,
    /// A question can't be sent.
    #[error("{0}")]
    Ask(AskError),
    /// The port failed.
    #[error("{0}")]
    Port(PortError),
}

impl From<AllocError> for SurveyFault {
    fn from(_error: AllocError) -> Self {
        SurveyFault::OutOfMemory
    }
}

impl<T: Drop> From<AllocFailed<T>> for SurveyFault {
    fn from(_error: AllocFailed<T>) -> Self {
        SurveyFault::OutOfMemory
    }
}

impl From<AskFault> for SurveyFault {
    fn from(fault: AskFault) -> Self {
        match fault {
            AskFault::Ask(error) => SurveyFault::Ask(error),
            AskFault::Port(error) => SurveyFault::Port(error),
        }
    }
}

impl From<PortError> for SurveyFault {
    fn from(error: PortError) -> Self {
        SurveyFault::Port(error)
    }
}
