//! A line of Remote Device Management with many devices on it (ANSI E1.20-2010).
//!
//! `Line::hear` gives bytes to each device that they address and tells what is on the wire then: nothing, one reply, or a
//! collision. Only answers to DISC_UNIQUE_BRANCH collide (section 7.5); what they sound like together is chosen with the line.
#![tactic(auto)]

mod collision;
mod device;
mod errand;
mod hearing;
mod hints;
mod joining;
mod laws;
mod line;
mod on_wire;
mod port;
mod responder;
mod station;

pub use collision::Collision;
pub use device::Device;
pub use errand::Errand;
pub use joining::{JoinError, Refused};
pub use laws::{only_branches_collide, searches_hear_a_line, unheard_bytes_change_nothing};
pub use line::Line;
pub use on_wire::OnWire;
pub use port::LinePort;
pub use station::Station;
