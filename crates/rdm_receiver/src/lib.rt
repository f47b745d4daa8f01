//! Packets and levels, cut out of what a UART hears (ANSI E1.20-2010, section 6.2): breaks, bytes and errors.
//!
//! A `Receiver` hears one signal after another, and tells with the last byte of a packet that this has come, and of each level of
//! DMX512 as it comes. `specs/Signals.antt` says which packets and levels stand among signals.
#![tactic(auto)]

mod laws;
mod receiver;
mod signal;

pub use laws::{
    bytes_stand_behind_a_break, packet_has_its_length, packets_stand_behind_breaks,
    zeros_have_heard_nothing,
};
pub use receiver::{Received, Receiver};
pub use signal::Signal;
