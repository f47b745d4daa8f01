//! Both ends of a line of Remote Device Management (ANSI E1.20-2010): a host that sends requests through a serial interface, and
//! the fixtures that reply to them. `specs/Replies.antt` says which replies belong to a request, `specs/Ends.antt` what the
//! contracts of both ends come to together, `specs/Searches.antt` what a search finds so, and the functions of this crate what is
//! promised: what is replied is what is heard.
//!
//! And runs of a line that has a collector for each of its devices: `specs/LineRun.antt` says what a run is, and
//! `line_recording_laws_hold` what every run keeps of each of the two.
#![tactic(auto)]

mod laws;
mod line_laws;

pub use laws::{
    interfaces_are_ends_of_lines, replies_belong_to_their_requests, searches_find_the_rig,
    searches_through_a_port_find_the_rig, what_is_replied_is_heard,
};
pub use line_laws::line_recording_laws_hold;
