//! The messages of the ENTTEC DMX USB Pro, by which a host and an interface speak on a serial line, and what both ends of it
//! need: their bytes, what stands at the front of a stream, reading on behind what is held, and clocks.
//!
//! `specs/Framing.antt` says which messages a stream holds, and `specs/Serving.antt` what an interface answers to them.
#![tactic(auto)]

mod clock;
mod framing;
pub mod labels;
mod laws;
mod reading;

pub use clock::{Clock, RealClock};
pub use framing::{
    FRAME_BYTES, Front, MOST_BODY, MOST_BYTES, MessageView, Packet, front_of, packet_of,
};
pub use laws::{stream_holds_one_list, written_messages_are_read_back};
pub use reading::{rest_of, take_more};
