//! Frames of Remote Device Management (ANSI E1.20-2010, section 6.2): their text as bytes, and back.
//!
//! `encode` writes the one text of a frame. `decode` reads exactly the texts of frames, and rejects every other
//! byte list, naming the first of six tests that it fails.
//!
//! Beside them stands what frames say: `Message`, what a response tells; `Nack`, why a request is rejected; `Entry` and `Severity`, what a
//! status message has; and `Fault`, what goes wrong with a frame on its way.
#![tactic(auto)]

mod bytes;
mod decoding;
pub mod digits;
mod discovery;
mod encoding;
mod fault;
mod frame;
mod frame_view;
mod laws;
mod message;
mod nack;
pub mod ranges;
pub mod standard;
mod status;
mod uid;
mod uid_text;

pub use bytes::{Body, Bytes, Load, Text, Wire};
pub use decoding::{FrameError, decode, decode_view, uid_at};
pub use discovery::{branch_uid, disc_reply};
pub use encoding::{encode, encode_into, sum_of};
pub use fault::Fault;
pub use frame::Frame;
pub use frame_view::FrameView;
pub use laws::{
    altered_frame_is_no_frame, branch_reply_belongs_to_one_uid, bytes_are_equal_by_value,
    coded_byte_is_read_back, entries_are_equal_by_value, faults_are_equal_by_value,
    frame_errors_are_equal_by_value, frames_are_equal_by_value, messages_are_equal_by_value,
    nacks_are_equal_by_value, printed_bytes_are_read_back, severities_are_equal_by_value,
    text_belongs_to_one_frame, text_has_its_slots, uid_errors_are_equal_by_value,
    uids_are_equal_by_value, uids_are_ordered_by_number, written_uid_is_read_back,
};
pub use message::Message;
pub use nack::{Nack, reason_name, reason_name_for_c};
pub use status::{Entry, Severity};
pub use uid::Uid;
pub use uid_text::UidError;
