//! A device and a controller of Remote Device Management (ANSI E1.20-2010) on one bus, with what goes wrong there; and what is
//! promised of the two together.
//!
//! A `System` has a `Responder` and a `Collector`, and plays one `Step` after the other: a command or a poll of the controller,
//! with its `Fault`, the report of a job, or a change at the device's own menu. Each step makes an `Event`, and the events make
//! the trace. It is a bus in memory, for scripts, tests and runs; on a real line there are the collector alone, of
//! rdm_collector, and the responder alone.
//!
//! The headline in `specs/Headline.antt` is what is promised of every run: `headline_holds` is the law, and `System::play` has
//! it after each step. The collector and its commands can be imported from here too.
#![tactic(auto)]

mod event;
mod laws;
mod system;

pub use event::{Event, Step, StepRef};
pub use laws::{
    answers_are_heard, bus_recording_laws_hold, commands_are_sent, device_collector_laws_hold,
    device_collector_laws_rule_out, headline_holds, headline_rules_out, jobs_are_numbered,
    messages_are_kept, play_errors_are_equal_by_value, polls_ask_in_turn,
    transactions_are_numbered, wrong_devices_break_the_prefix_law,
};
pub use rdm_collector::{
    Action, AskError, Collector, Command, Heard, PollError, Want, actions_are_equal_by_value,
    ask_errors_are_equal_by_value, commands_are_equal_by_value, heards_are_equal_by_value,
    joining_goes_from_the_front, poll_errors_are_equal_by_value, recording_laws_hold,
    recording_laws_rule_out, wants_are_equal_by_value,
};
pub use rdm_frame::{Fault, altered_frame_is_no_frame, faults_are_equal_by_value};
pub use system::{PlayError, System};
