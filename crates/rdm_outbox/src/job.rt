//! Jobs.

use rdm_params::Work;
use thiserror::Error;

/// A slow command that was accepted, until it has ended.
#[derive(Clone, Copy, Debug, PartialEq, Eq)]
pub struct Job {
    /// The number: that of the worker's first job, and one more for each job that it was given before. After 4,294,967,295
    /// comes 0.
    pub number: u32,
    /// What is to be done.
    pub work: Work,
}

/// A job isn't accepted.
#[derive(Clone, Copy, Debug, PartialEq, Eq, Error)]
pub enum Full {
    /// As many jobs and messages wait as may, or the worker was given as many jobs as it may be.
    #[error("no room for a job")]
    NoRoom,
}
