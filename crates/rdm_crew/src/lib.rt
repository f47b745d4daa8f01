//! A run of the bus with two workers: slow commands are carried out on threads of their own, and their reports arrive
//! on the bus.
//!
//! `run` plays steps on the calling thread. Each `Part` works on a thread of its own: the jobs that the device starts
//! are handed to it over a lane, and its reports come back over another. What a run is stands in `specs/RunTrace.antt`.
//! `run_steps` does the same, and says at which step a run stopped (`specs/Stops.antt`).
//!
//! `running` has both calls. `ready` makes all that a run is made of before its threads are started, `bus` is what the bus thread does
//! while there are steps, `threads` are the threads beside it with what they share, and `end` joins them and settles the lanes. It is
//! for runs that end: each end of a lane keeps all that went through.
#![tactic(auto)]

mod bus;
mod end;
mod error;
mod laws;
mod panel;
mod part;
mod ready;
mod running;
mod setup;
mod step;
mod stopped;
mod threads;
mod trace;

pub use error::RunError;
pub use laws::{
    headline_of_run_rules_out, no_report_goes_astray, no_report_is_missing,
    run_errors_are_equal_by_value,
};
pub use panel::Panel;
pub use part::Part;
pub use running::{run, run_steps};
pub use setup::Setup;
pub use step::CrewStep;
pub use stopped::Stopped;
pub use trace::Trace;
// What `Trace::reports` shows.
pub use rdm_lane::{Settled, Taken};
