//! The device side of Remote Device Management (ANSI E1.20-2010): the reply to each frame that is heard, the jobs that slow
//! commands start, and the messages that wait for a controller.
//!
//! `Responder::step` answers what the reply rules give for the whole history before it, `Responder::arrive` takes the report
//! of a job, and `Responder::change` takes what a person changes at the fixture's own menu. The rules stand in
//! `specs/Rules.antt`, and what a responder has to do with a history in `specs/StandsFor.antt`.
//!
//! All types that a fixture names are here, those of the crates below too.
#![tactic(auto)]

mod carry_out;
mod laws;
mod reply;
mod report;
mod responder;
mod run;
mod settings;
mod stepped;

pub use laws::{
    answers_are_equal_by_value, arrivals_are_equal_by_value, astrays_are_equal_by_value,
    lawful_histories_have_one_state, new_errors_are_equal_by_value, no_rooms_are_equal_by_value,
    outputs_are_equal_by_value, reports_are_equal_by_value, results_are_never_replaced,
    saved_values_are_restored, starts_are_equal_by_value,
};
pub use rdm_frame::{Body, Text, Uid, Wire};
pub use rdm_outbox::Job;
pub use rdm_params::{
    Ask, Change, Changed, Devices, Kind, Message, Nack, Outcome, Personality, Plate, Profile,
    RestoreError, SaveError, SelfTest, SensorDef, Severity, Slot, StatusText, Unit, Value, Verb,
    Verdict, Work,
};
pub use report::{Arrival, Astray, NoRoom, Report};
pub use responder::Responder;
pub use run::{Input, Output};
pub use settings::{NewError, Settings};
pub use stepped::{Started, Stepped};
