//! Captures of RDM traffic as files: pcap and pcapng, as tcpdump and Wireshark write them.
//!
//! `read_capture` gives the RDM packets of a file with their times: those of the link type that Wireshark has for frames of one protocol,
//! and those that ArtRdm packets of Art-Net carry. `put_header` and `put_packet` write a pcapng file, which reads back as the packets that
//! were written. `capture_of` writes a trace as a capture, and `trace_of` the packets of a capture as a trace.
//!
//! `specs/Captures.antt` says which packets a file has.
#![tactic(auto)]

mod carried;
mod laws;
mod moment;
mod options;
mod order;
mod packet;
mod pcap;
mod pcapng;
mod reading;
mod resolution;
mod trace;
mod writing;

pub use laws::{
    capture_of_a_trace_is_read_back, capture_reads_in_one_way, written_packets_are_read_back,
};
pub use moment::{Moment, capture_of, capture_of_packets};
pub use packet::{Direction, Packet};
pub use reading::{CaptureFault, Reading, is_capture, read_capture};
pub use trace::trace_of;
pub use writing::{put_header, put_packet};
