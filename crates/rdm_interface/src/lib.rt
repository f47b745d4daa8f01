//! The host's side of an interface that speaks the protocol of the ENTTEC DMX USB Pro: a controller sends requests on a line
//! through it, and hears what is answered.
//!
//! An `Interface` is a `Port` of `rdm_collector`, over any reader, writer and clock. `specs/Answers.antt` says which message
//! answers a request, and `specs/Exchanges.antt` what one exchange comes to. `discover_through` searches a line through any port, and
//! `specs/Askings.antt` says what that tells of the line.
#![tactic(auto)]

mod answer;
mod exchanging;
mod finding;
mod interface;
mod laws;
mod parameters;
mod searching;
mod waiting;
mod wanted;

pub use interface::Interface;
pub use laws::{
    answered_is_in_time, late_answers_are_passed_over, lines_are_heard,
    parameters_are_equal_by_value, replies_are_heard, search_faults_are_equal_by_value,
};
pub use parameters::Parameters;
pub use rdm_messages::{Clock, RealClock};
pub use searching::{SearchFault, discover_through, run_through, step_through};
