//! The library for programs in C and C++, whose header is `c/felosumay.h`: a responder, a collector of a device's messages,
//! or a search for the fixtures of a line, behind a handle.
//!
//! Each export says by its contract what the call of the library below says, over the history, the collector or the search
//! that stands behind the handle. The only conditions are of addresses that may be NULL, and say what C lends there: a handle that is
//! to be freed, or the bytes that `felosumay_responder_save` writes (`specs/Places.antt`). What a call only reads is a slice, in C a
//! pointer and a length. It is never NULL, even if it is empty: C calls an export whose name ends in `_nonnull` by an inline function of
//! the header without that ending, which sees to it. What a handle owns stands in `specs/Held.antt`.
//! A receiver is no handle: it is a plain struct of C's, which holds all of it (`specs/Receivers.antt`).
//! The calls of C stand in `exports/`; what each does to what the handle holds, in the file of the same name in `endpoint/`.
#![tactic(auto)]

mod endpoint;
mod exports;
mod found;
mod front;
mod handle;
mod image;
mod job;
mod keeping;
mod left;
mod lent;
mod memory;
mod message;
mod names;
mod outcome;
mod profile;
mod raw_box;
mod reply;
mod running_search;
mod sizes;
mod status;

pub use exports::change::{
    felosumay_responder_change_label_nonnull, felosumay_responder_change_personality,
    felosumay_responder_change_start,
};
pub use exports::collector::{
    felosumay_collector_ask_nonnull, felosumay_collector_free, felosumay_collector_hear_nonnull,
    felosumay_collector_new, felosumay_collector_next, felosumay_collector_over,
    felosumay_collector_poll,
};
pub use exports::firmware::{felosumay_responder_note, felosumay_responder_place_nonnull};
pub use exports::frame::felosumay_frame_fault_nonnull;
pub use exports::images::{
    felosumay_images_newest, felosumay_images_next_nonnull, felosumay_images_read_nonnull,
};
pub use exports::memory::{felosumay_responder_fits, felosumay_responder_size};
pub use exports::names::{
    felosumay_tell_parameter, felosumay_tell_reason, felosumay_tell_status, felosumay_tell_version,
};
pub use exports::profile::felosumay_profile_fault_nonnull;
pub use exports::queue::{
    felosumay_responder_drop_oldest, felosumay_responder_entries, felosumay_responder_next_end,
    felosumay_responder_waiting_message, felosumay_responder_working,
};
pub use exports::reading::{
    felosumay_responder_get_nonnull, felosumay_responder_outstanding,
    felosumay_responder_own_value, felosumay_responder_room, felosumay_responder_waiting,
};
pub use exports::receiver::{
    felosumay_receiver_break, felosumay_receiver_byte, felosumay_receiver_error,
};
pub use exports::reply::felosumay_reply_read_nonnull;
pub use exports::responder::{
    felosumay_responder_arrive, felosumay_responder_demo, felosumay_responder_free,
    felosumay_responder_new_with_nonnull, felosumay_responder_step_nonnull,
};
pub use exports::saving::{
    felosumay_responder_restore_nonnull, felosumay_responder_save, felosumay_responder_saved_size,
    felosumay_saved_left_nonnull,
};
pub use exports::search::{
    felosumay_search_count, felosumay_search_found, felosumay_search_free,
    felosumay_search_hear_nonnull, felosumay_search_new, felosumay_search_next,
    felosumay_search_resume, felosumay_search_unsure,
};
pub use found::FoundNumbers;
pub use handle::Handle;
pub use image::ImageNumbers;
pub use job::{JobNumbers, SteppedNumbers};
pub use left::LeftNumbers;
pub use message::{CommandNumbers, HeardNumbers, MessageNumbers};
pub use names::NameNumbers;
pub use outcome::OutcomeNumbers;
pub use profile::modes::ModeNumbers;
pub use profile::parameters::ParameterNumbers;
pub use profile::{
    PersonalityNumbers, ProfileNumbers, SelfTestNumbers, SensorNumbers, SlotNumbers,
    StatusTextNumbers, TextNumbers, UnitNumbers,
};
pub use reply::ReplyNumbers;
