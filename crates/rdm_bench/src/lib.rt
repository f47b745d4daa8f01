//! The responder as a benchmark hears it: frames that are heard over and over, the reports of the jobs that they start,
//! and what the replies come to.
//!
//! `rdm_bench_run` is called from C (`bench/driver.c`). What it answers depends on every byte of every reply, so that no
//! compiler can leave the work out.
#![tactic(auto)]

mod device;
mod export;
mod fault;
mod packed;
mod replay;
mod reports;
mod tally;

pub use export::{rdm_bench_make, rdm_bench_run};
pub use fault::Fault;
pub use reports::Reports;
pub use tally::Tally;

#[cfg(test)]
mod tests;
