//! From a frame to its text.

ghost use Rattle.std.specs.Prelude.{[], ◌≡◌, ◌+◌, ◌++◌, ◌%◌, ◌≤◌, length, sum};
ghost use Rattle.std.specs.Int.{w32, to_be_bytes};
ghost use Rattle.rdm_frame.specs.FrameText.{frame_text, head_slots};

use crate::standard::{START_CODE, SUB_START_CODE};
use crate::{Frame, FrameView, Wire};

/// How many slots stand before the parameter data.
pub(crate) const HEAD_SLOTS: usize = 24;

/// The text of a frame (E1.20 section 6.2).
pub fn encode(frame: &Frame) -> Wire
    ensures { result ≡ frame_text frame.now }
{
    let mut wire = Wire::new();
    encode_into(&frame.view(), &mut wire);
    wire
}

/// Writes the text of a frame. What stood there before is gone.
// Inlined, with `write_head`: where the compiler sees the list cleared, no append tests for room, and each field of the
// header is stored as one number.
#[inline(always)]
#[tactic(auto, unfolding(crate::specs::FrameText::frame_text))]
pub fn encode_into(frame: &FrameView<'_>, wire: &mut Wire)
    ensures { wire.new ≡ frame_text frame.now }
{
    wire.clear();
    write_head(frame, wire);
    write_data(frame.body, wire);
    let checksum = checksum_of(wire.as_slice());
    wire.append(&checksum.to_be_bytes());
}

/// Writes the slots before the parameter data into an empty list.
// Inlined, as `encode_into` says.
#[inline(always)]
#[tactic(auto, unfolding(crate::specs::FrameText::head_slots))]
fn write_head(frame: &FrameView<'_>, wire: &mut Wire)
    requires { wire.old ≡ [] }
    ensures value { wire.new ≡ head_slots frame.now }
    ensures len { length wire.new ≡ 24 }
{
    let data = frame.body.len() as u8;
    wire.append(&[START_CODE, SUB_START_CODE, HEAD_SLOTS as u8 + data]);
    wire.append(&frame.dst.maker.to_be_bytes());
    wire.append(&device_slots(frame.dst.device));
    wire.append(&frame.src.maker.to_be_bytes());
    wire.append(&frame.src.device.to_be_bytes());
    wire.append(&[frame.tn, frame.port, frame.count]);
    wire.append(&frame.sub.to_be_bytes());
    wire.append(&[frame.class]);
    wire.append(&frame.pid.to_be_bytes());
    wire.append(&[data]);
}

/// The slots of a device ID (E1.20 sections 6.2.4 and 6.2.5).
// Of the requester's, which was read from slots with its bytes swapped: so the two swaps meet, and the compiler stores what it read.
// `to_be_bytes` would take the number apart again.
#[inline(always)]
fn device_slots(device: u32) -> [u8; 4]
    ensures { result ≡ to_be_bytes w32 device }
{
    device.swap_bytes().to_le_bytes()
}

/// Writes the parameter data behind them.
// Most replies have a byte or none, and those are written without a call.
#[inline(always)]
fn write_data(data: &[u8], wire: &mut Wire)
    requires { length wire.old + length data.now ≤ 257 }
    ensures { wire.new ≡ wire.old ++ data.now }
{
    match data {
        [] => {}
        [slot] => wire.append(&[*slot]),
        _ => wire.append(data),
    }
}

/// The sum of the slots, modulo 65536 (E1.20 section 6.2.11).
pub(crate) fn checksum_of(slots: &[u8]) -> u16
    requires { length slots.now ≤ 257 }
    ensures { result ≡ sum slots.now % 65536 }
{
    (sum_of(slots) % 65536) as u16
}

/// The sum of the slots.
// By parts of thirty-two, each of which a processor adds at once: so long, the compiler leaves the loop as it is written. Each
// shorter part is told by a test of its own: in an arm with others, the compiler mixes its slots with theirs. Not inlined: at a
// call the compiler makes it longer, to spare the few instructions of the call.
#[inline(never)]
#[tactic(auto, using(crate::proofs::Sums::sum_is_small))]
pub fn sum_of(slots: &[u8]) -> u32
    requires { length slots.now ≤ 257 }
    ensures { result ≡ sum slots.now }
{
    let mut total = 0;
    let mut rest = slots;
    while let Some((part, others)) = rest.split_first_chunk::<32>() {
        total += sum_of_part(part);
        rest = others;
    }
    let (total, rest) = add_first::<16>(total, rest);
    let (total, rest) = add_first::<8>(total, rest);
    total + sum_of_last(rest)
}

/// A sum with that of the first `N` slots added, if there are as many, and the slots that are left.
// By way of the sum, so that slots that aren't there take no zero.
#[inline(always)]
#[tactic(auto, using(crate::proofs::Sums::sum_in_parts))]
fn add_first<const N: usize>(total: u32, slots: &[u8]) -> (u32, &[u8])
    requires part { N ≤ 16 }
    requires fits { total + sum slots.now ≤ 0xFFFF }
    ensures sum { result.0 + sum result.1.now ≡ total + sum slots.now }
    ensures shorter { length result.1.now ≤ length slots.now }
{
    match slots.split_first_chunk::<N>() {
        Some((first, others)) => (total + sum_of_part(first), others),
        None => (total, slots),
    }
}

/// The sum of the last slots, of which there are fewer than eight.
// Told apart by their number: one jump takes the place of a test before each slot. In an arm of its own `sum_of_part` is of so many
// slots, and has no loop.
#[inline(always)]
fn sum_of_last(slots: &[u8]) -> u32
    requires { length slots.now ≤ 257 }
    ensures { result ≡ sum slots.now }
{
    match slots {
        [] => 0,
        [a] => u32::from(*a),
        [a, b] => u32::from(*a) + u32::from(*b),
        [a, b, c] => u32::from(*a) + u32::from(*b) + u32::from(*c),
        [a, b, c, d] => u32::from(*a) + u32::from(*b) + u32::from(*c) + u32::from(*d),
        [a, b, c, d, e] => u32::from(*a)
            + u32::from(*b)
            + u32::from(*c)
            + u32::from(*d)
            + u32::from(*e),
        [_, _, _, _, _, _] => sum_of_part(slots),
        [_, _, _, _, _, _, _] => sum_of_part(slots),
        _ => sum_of_part(slots),
    }
}

/// The sum of some of the slots.
// Inlined: the compiler sums sixteen slots, or eight, of which it sees that there are as many, by one instruction.
#[inline(always)]
fn sum_of_part(slots: &[u8]) -> u32
    requires { length slots.now ≤ 257 }
    ensures { result ≡ sum slots.now }
{
    slots.iter().map(|slot| u32::from(*slot)).sum()
}
