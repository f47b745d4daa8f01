//! The controller's side of Remote Device Management (ANSI E1.20-2010): what a console sends, what it takes the answers for,
//! and the messages that it collects.
//!
//! A `Collector` sends one request at a time. By `poll` it fetches the messages that wait in one device, and records them; by
//! `ask` it sends the commands of its user; and `hear` says what it takes bytes for. It neither opens a port nor reads a
//! clock: whoever has the port sends the bytes that it gives, hands it those that come, and calls `over` on a timeout.
//! `read_reply` reads what a response says.
//! `specs/Collecting.antt` says what each call does, `specs/Hearing.antt` what is taken for an answer, and
//! `specs/Recording.antt` what the record then holds.
//!
//! A `DeviceCollector` does the same for any device, also for one that answers polls by NACK, ACK_TIMER or ACK_OVERFLOW:
//! `specs/AnyDevice/` has its definitions and its laws.
//!
//! What both send is what their `Sender` sends: `specs/Sending.antt` says it.
#![tactic(auto)]

mod any_device;
mod collector;
mod command;
mod laws;
mod message;
mod port;
mod record;
mod reply;
mod sender;
mod transaction;
mod want;

pub use any_device::{
    Collected, DeviceCollector, DeviceHeard, any_device_answers_go_on, any_device_is_recorded,
    any_device_law_rules_out, any_device_loses_none, collecteds_are_equal_by_value,
    cut_messages_are_joined, device_heards_are_equal_by_value, first_message, is_sure, join_data,
};
pub use collector::Collector;
pub use command::{Action, Command, is_reserved};
pub use laws::{
    actions_are_equal_by_value, answers_are_taken, ask_errors_are_equal_by_value,
    commands_are_equal_by_value, heards_are_equal_by_value, joining_goes_from_the_front,
    poll_errors_are_equal_by_value, port_errors_are_equal_by_value, recording_laws_hold,
    recording_laws_rule_out, responses_are_equal_by_value, wants_are_equal_by_value,
};
pub use port::{Port, PortError};
pub use rdm_frame::standard::MOST_DATA;
pub use rdm_frame::{Body, Load, Message, Uid, Wire};
pub use reply::{Reply, Response, read_reply};
pub use sender::{AskError, PollError, Sender};
pub use transaction::Heard;
pub use want::Want;
