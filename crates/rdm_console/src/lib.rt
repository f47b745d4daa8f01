//! A console's logic (ANSI E1.20-2010): what is sent for a command, which message is the result of one that takes time, and how it ends.
//!
//! A device answers such a command by ACK_TIMER, and tells the result later, in a message of its queue (sections 6.3.3 and 10.3.1).
//! `belongs` says whether a message is the result. `Awaiting` hears each message that is fetched, and says whether the command is
//! done, rejected, or failed.
//!
//! `Conversation` says what is done next for a command, from the first request to its result, and when it is given up; `ask_once` and
//! `poll_once` send a request through a `Port`, and `ask_through` sends a command again while nothing answers; and `Fetching` fetches one
//! message.
//!
//! `Mailbox` fetches the messages of a device: it joins parts, knows repeats, and hands each message on once.
#![tactic(auto)]

mod awaiting;
mod belonging;
mod causes;
mod conversation;
mod exchanging;
mod fetching;
mod laws;
mod letter;
mod mailbox;
mod message;
mod parcel;
mod sameness;

pub use awaiting::{Awaiting, Verdict};
pub use belonging::belongs;
pub use conversation::{Answered, Conversation, Lack, Next};
pub use exchanging::{AskFault, PollFault, ask_once, ask_through, poll_once};
pub use fetching::{Fetched, Fetching};
pub use laws::{
    answereds_are_equal_by_value, cames_are_equal_by_value, conversations_are_lawful,
    faults_are_equal_by_value, fetcheds_are_equal_by_value, lacks_are_equal_by_value,
    messages_are_taken_off, nexts_are_equal_by_value, sorteds_are_equal_by_value,
    verdicts_are_equal_by_value,
};
pub use letter::Letter;
pub use mailbox::{Came, Mailbox, Sorted};
pub use message::MessageView;
pub use rdm_collector::{
    Action, AskError, Command, PollError, Port, PortError, Response, Uid, Want, Wire,
};
pub use rdm_frame::{Entry, Severity};
