//! A fixture on a serial line, behind an interface that speaks the protocol of the ENTTEC DMX USB Pro: the host sends
//! messages with RDM requests, and reads messages with the replies.
//!
//! `serve` answers each message of a stream, by a clock on which the fixture's slow commands take their time.
#![tactic(auto)]

mod answering;
mod laws;
mod live_fixture;
mod on_line;
mod protocol;
mod rig;
mod serving;

pub use laws::{
    no_job_is_overdue, requests_are_answered, rig_of_one_replies_as_its_fixture,
    serve_errors_are_equal_by_value,
};
pub use live_fixture::{LiveFixture, SensorCourse};
pub use on_line::OnLine;
pub use rdm_messages::{
    Clock, Front, MOST_BODY, MessageView, Packet, RealClock, front_of, packet_of,
};
pub use serving::{ServeError, serve, serve_some};
