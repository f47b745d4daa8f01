//! Numbers in the byte order of a capture, and parts of a list of bytes.

ghost use Rattle.std.specs.Prelude.{◌≡◌, ◌+◌, ◌≤◌, length, drop, take};
ghost use Rattle.rdm_capture.specs.Numbers.{number};

use crate::packet::Order;
use byteorder::{BigEndian, ByteOrder, LittleEndian};

/// The number in two bytes from a place on.
#[tactic(auto, unfolding(crate::specs::Numbers::number))]
pub(crate) fn word_at(order: Order, bytes: &[u8], at: usize) -> u16
    requires { at + 2 ≤ length bytes.now }
    ensures { result ≡ number order 2 (drop at bytes.now) }
{
    let (_, part) = bytes.split_at(at);
    match order {
        Order::Big => BigEndian::read_u16(part),
        Order::Little => LittleEndian::read_u16(part),
    }
}

/// The number in four bytes from a place on.
#[tactic(auto, unfolding(crate::specs::Numbers::number))]
pub(crate) fn long_at(order: Order, bytes: &[u8], at: usize) -> u32
    requires { at + 4 ≤ length bytes.now }
    ensures { result ≡ number order 4 (drop at bytes.now) }
{
    let (_, part) = bytes.split_at(at);
    match order {
        Order::Big => BigEndian::read_u32(part),
        Order::Little => LittleEndian::read_u32(part),
    }
}

/// The bytes without the first ones: none where there are no more.
pub(crate) fn behind(bytes: &[u8], count: usize) -> &[u8]
    ensures { result.now ≡ drop count bytes.now }
{
    let (_, rest) = bytes.split_at(count.min(bytes.len()));
    rest
}

/// The first bytes: all where there are no more.
pub(crate) fn front(bytes: &[u8], count: usize) -> &[u8]
    ensures { result.now ≡ take count bytes.now }
{
    let (front, _) = bytes.split_at(count.min(bytes.len()));
    front
}
