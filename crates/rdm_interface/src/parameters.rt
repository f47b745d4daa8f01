//! What the interface says of itself.

ghost use Rattle.std.specs.Prelude.{◌≡◌};
ghost use Rattle.rdm_interface.specs.Answers.{parameters_in, serial_number_in};

use crate::answer::Answer;

/// The parameters of an interface.
#[derive(Clone, Copy, Debug, PartialEq, Eq)]
pub struct Parameters {
    /// The version of its firmware: the major number in the high byte.
    pub firmware: u16,
    /// How long the break of a DMX512 packet is, in units of 10.67 µs.
    pub break_time: u8,
    /// How long the mark after it is, in units of 10.67 µs.
    pub mark_time: u8,
    /// How many DMX512 packets it sends a second: 0 for as many as it can.
    pub rate: u8,
}

/// The parameters that an answer says, if it has them all.
pub(crate) fn parameters_in(answer: &Answer) -> Option<Parameters>
    ensures { result ≡ parameters_in answer.now }
{
    match answer.body() {
        [low, high, break_time, mark_time, rate, ..] => Some(Parameters {
            firmware: u16::from_le_bytes([*low, *high]),
            break_time: *break_time,
            mark_time: *mark_time,
            rate: *rate,
        }),
        _ => None,
    }
}

/// The serial number that an answer says, if it has its four bytes.
pub(crate) fn serial_number_in(answer: &Answer) -> Option<u32>
    ensures { result ≡ serial_number_in answer.now }
{
    match answer.body() {
        [a, b, c, d] => Some(u32::from_le_bytes([*a, *b, *c, *d])),
        _ => None,
    }
}
