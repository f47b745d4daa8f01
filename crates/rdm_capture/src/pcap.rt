//! The packets of pcap.

ghost use Rattle.std.specs.Prelude.{◌≡◌, ◌<◌, ◌≤◌, length, IfSome};
ghost use Rattle.std.specs.Option.{option_map};
ghost use Rattle.rdm_capture.specs.Packets.{piece};
ghost use Rattle.rdm_capture.specs.Blocks.{record_at};

use crate::order::{behind, front, long_at};
use crate::packet::{Block, Direction, Interface, Order};
use crate::pcapng::captured;
use crate::resolution::nanoseconds;

/// How many bytes stand in front of a packet.
const HEAD_BYTES: usize = 16;

/// The packet at the front, with its header.
#[tactic(auto, unfolding(crate::specs::Blocks::record_at))]
pub(crate) fn record_at<'a>(
    order: Order,
    interface: &Interface,
    bytes: &'a [u8],
) -> Option<Block<'a>>
    ensures value { option_map piece result ≡ record_at order interface.now bytes.now }
    ensures some { IfSome result (λ b. 0 < b.size) }
    ensures within { IfSome result (λ b. b.size ≤ length bytes.now) }
{
    if bytes.len() < HEAD_BYTES {
        return None;
    }
    let count = long_at(order, bytes, 8) as usize;
    if bytes.len() < HEAD_BYTES + count {
        return None;
    }
    let seconds = u64::from(long_at(order, bytes, 0));
    let ticks = u128::from(long_at(order, bytes, 4));
    let time = seconds * 1_000_000_000 + nanoseconds(interface.resolution, ticks);
    let frame = front(behind(bytes, HEAD_BYTES), count);
    Some(Block {
        size: HEAD_BYTES + count,
        content: captured(interface, Some(time), Direction::Unknown, frame),
    })
}
