//! Start addresses for the fixtures of a DMX512 line, one behind the other, so that no two devices share a slot.
//!
//! `propose` finds them for the rows of a survey, in their order, and `put_heading` and `put_assignment` write them as a table.
#![tactic(auto)]

mod assignment;
mod laws;
mod lines;
mod proposing;

pub use assignment::Assignment;
pub use laws::{
    an_address_is_behind_those_before, devices_are_those_that_take_slots,
    each_device_is_there_once, proposed_slots_begin_at_the_first_address,
    proposed_slots_do_not_clash, the_last_slot_is_that_of_the_last_device,
};
pub use lines::{put_assignment, put_heading};
pub use proposing::{ProposalError, propose};
