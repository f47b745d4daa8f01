//! GET and SET at a root device and its sub-devices (ANSI E1.20-2010, sections 6.3, 9 and 10), by the table of parameters.
//!
//! `Devices` keeps the values, and answers a command or gives the first reason to reject it. A slow command starts a job, and
//! `Devices::commit` carries it out when the job has ended.
#![tactic(auto)]

mod changed;
mod commands;
mod jobs;
mod panel;
mod placing;
mod verdict;

pub use changed::Changed;
pub use commands::{Devices, NewError};
pub use jobs::{Ask, Outcome, Work, estimate_of, fits, fitting_worker, worker_at, worker_of};
pub use panel::{Change, Plate};
pub use placing::PlaceError;
pub use verdict::{Answer, Verdict};
