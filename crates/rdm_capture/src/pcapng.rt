//! The blocks of pcapng.

ghost use Rattle.std.specs.Prelude.{◌≡◌, ◌<◌, ◌≤◌, length, slice_index, IfSome};
ghost use Rattle.std.specs.Option.{option_map};
ghost use Rattle.rdm_capture.specs.Packets.{told, piece};
ghost use Rattle.rdm_capture.specs.Blocks.{link_of, captured, block_size, order_in, section_at, resolution_of, interface_in, direction_of, enhanced_in, simple_in, body_says, block_at};

use crate::carried::message_in;
use crate::options::{option_in, padded};
use crate::order::{behind, front, long_at, word_at};
use crate::packet::{Block, Content, Direction, Interface, Link, Order, Packet, Resolution};
use crate::resolution::nanoseconds;

/// The type of a Section Header Block, which is the same in both byte orders.
pub(crate) const SECTION: u32 = 0x0A0D_0D0A;

const INTERFACE: u32 = 1;

const SIMPLE_PACKET: u32 = 3;

const ENHANCED_PACKET: u32 = 6;

/// What shows the byte order of a section.
const MAGIC: u32 = 0x1A2B_3C4D;

/// The option with the direction of a packet.
const FLAGS: u16 = 2;

/// The option with the resolution of an interface.
const RESOLUTION: u16 = 9;

/// How many bytes of a block aren't its body.
const FRAME_BYTES: usize = 12;

/// The block at the front, in a section with this byte order and these interfaces.
#[tactic(auto, unfolding(crate::specs::Blocks::block_at))]
pub(crate) fn block_at<'a>(
    order: Order,
    interfaces: &[Interface],
    bytes: &'a [u8],
) -> Option<Block<'a>>
    ensures value { option_map piece result ≡ block_at order interfaces.now bytes.now }
    ensures some { IfSome result (λ b. 0 < b.size) }
    ensures within { IfSome result (λ b. b.size ≤ length bytes.now) }
{
    if bytes.len() < FRAME_BYTES {
        return None;
    }
    if long_at(Order::Big, bytes, 0) == SECTION {
        return section_at(bytes);
    }
    let size = block_size(order, bytes)?;
    let body = front(behind(bytes, 8), size - FRAME_BYTES);
    let content = body_says(order, interfaces, long_at(order, bytes, 0), body)?;
    Some(Block { size, content })
}

/// What the body of a block of this type says.
fn body_says<'a>(
    order: Order,
    interfaces: &[Interface],
    kind: u32,
    body: &'a [u8],
) -> Option<Content<'a>>
    ensures { option_map told result ≡ body_says order interfaces.now kind body.now }
{
    if kind == INTERFACE {
        return interface_in(order, body);
    }
    if kind == SIMPLE_PACKET {
        return simple_in(order, interfaces, body);
    }
    if kind == ENHANCED_PACKET {
        return enhanced_in(order, interfaces, body);
    }
    Some(Content::Other)
}

/// How many bytes the block at the front has, if it is whole.
#[tactic(auto, unfolding(crate::specs::Blocks::block_size))]
fn block_size(order: Order, bytes: &[u8]) -> Option<usize>
    ensures value { result ≡ block_size order bytes.now }
    ensures some { IfSome result (λ size. 12 ≤ size) }
    ensures within { IfSome result (λ size. size ≤ length bytes.now) }
{
    if bytes.len() < FRAME_BYTES {
        return None;
    }
    let size = long_at(order, bytes, 4) as usize;
    if size < FRAME_BYTES {
        return None;
    }
    if bytes.len() < size {
        return None;
    }
    if size % 4 == 0 && long_at(order, bytes, size - 4) as usize == size {
        Some(size)
    } else {
        None
    }
}

/// The byte order of a section.
#[tactic(auto, unfolding(crate::specs::Blocks::order_in))]
fn order_in(bytes: &[u8]) -> Option<Order>
    requires { 12 ≤ length bytes.now }
    ensures { result ≡ order_in bytes.now }
{
    if long_at(Order::Big, bytes, 8) == MAGIC {
        return Some(Order::Big);
    }
    if long_at(Order::Little, bytes, 8) == MAGIC {
        return Some(Order::Little);
    }
    None
}

/// The Section Header Block at the front.
#[tactic(auto, unfolding(crate::specs::Blocks::section_at))]
fn section_at(bytes: &[u8]) -> Option<Block<'_>>
    requires { 12 ≤ length bytes.now }
    ensures value { option_map piece result ≡ section_at bytes.now }
    ensures some { IfSome result (λ b. 0 < b.size) }
    ensures within { IfSome result (λ b. b.size ≤ length bytes.now) }
{
    let order = order_in(bytes)?;
    let size = block_size(order, bytes)?;
    if size < 28 {
        return None;
    }
    Some(Block {
        size,
        content: Content::Section(order),
    })
}

/// Of which kind the frames of this link type are.
pub(crate) fn link_of(code: u32) -> Link
    ensures { result ≡ link_of code }
{
    if code == 252 {
        return Link::UpperPdu;
    }
    if code == 1 {
        return Link::Ethernet;
    }
    Link::Other
}

/// The interface that the body of an Interface Description Block describes.
#[tactic(auto, unfolding(crate::specs::Blocks::interface_in))]
fn interface_in(order: Order, body: &[u8]) -> Option<Content<'_>>
    ensures { option_map told result ≡ interface_in order body.now }
{
    if body.len() < 8 {
        return None;
    }
    Some(Content::Interface(Interface {
        link: link_of(u32::from(word_at(order, body, 0))),
        resolution: resolution_of(option_in(order, RESOLUTION, behind(body, 8))),
        most: long_at(order, body, 4),
    }))
}

/// The resolution that this option says: a microsecond without it.
#[tactic(auto, unfolding(crate::specs::Blocks::resolution_of))]
fn resolution_of(value: Option<&[u8]>) -> Resolution
    ensures { result ≡ resolution_of (option_map (λ v. v.now) value.entry) }
{
    let exponent = match value {
        None => return Resolution::Decimal(6),
        Some(value) => first_of(value),
    };
    if exponent < 128 {
        Resolution::Decimal(u32::from(exponent))
    } else {
        Resolution::Binary(u32::from(exponent - 128))
    }
}

/// The first byte, or 0 where there is none.
fn first_of(bytes: &[u8]) -> u8
    ensures { result ≡ slice_index bytes.now 0 }
{
    match bytes {
        [first, ..] => *first,
        [] => 0,
    }
}

/// The packet that the body of an Enhanced Packet Block has.
#[tactic(auto, unfolding(crate::specs::Blocks::enhanced_in))]
fn enhanced_in<'a>(order: Order, interfaces: &[Interface], body: &'a [u8]) -> Option<Content<'a>>
    ensures { option_map told result ≡ enhanced_in order interfaces.now body.now }
{
    if body.len() < 20 {
        return None;
    }
    let count = long_at(order, body, 12) as usize;
    if body.len() < 20 + count {
        return None;
    }
    let interface = interfaces.get(long_at(order, body, 0) as usize)?;
    let ticks = u128::from(long_at(order, body, 4)) * 4_294_967_296
        + u128::from(long_at(order, body, 8));
    let options = behind(body, 20 + padded(count));
    Some(captured(
        interface,
        Some(nanoseconds(interface.resolution, ticks)),
        direction_of(order, option_in(order, FLAGS, options)),
        front(behind(body, 20), count),
    ))
}

/// The direction that this option says.
#[tactic(auto, unfolding(crate::specs::Blocks::direction_of))]
fn direction_of(order: Order, flags: Option<&[u8]>) -> Direction
    ensures { result ≡ direction_of order (option_map (λ v. v.now) flags.entry) }
{
    let flags = match flags {
        None => return Direction::Unknown,
        Some(flags) => flags,
    };
    if flags.len() < 4 {
        return Direction::Unknown;
    }
    let bits = long_at(order, flags, 0) % 4;
    if bits == 1 {
        return Direction::Inbound;
    }
    if bits == 2 {
        return Direction::Outbound;
    }
    Direction::Unknown
}

/// The packet that the body of a Simple Packet Block has.
#[tactic(auto, unfolding(crate::specs::Blocks::simple_in))]
fn simple_in<'a>(order: Order, interfaces: &[Interface], body: &'a [u8]) -> Option<Content<'a>>
    ensures { option_map told result ≡ simple_in order interfaces.now body.now }
{
    if body.len() < 4 {
        return None;
    }
    let interface = interfaces.first()?;
    let had = long_at(order, body, 0);
    let count = if interface.most == 0 {
        had
    } else {
        had.min(interface.most)
    } as usize;
    if body.len() < 4 + count {
        return None;
    }
    Some(captured(
        interface,
        None,
        Direction::Unknown,
        front(behind(body, 4), count),
    ))
}

/// A captured frame: a packet if it carries an RDM message.
#[tactic(auto, unfolding(crate::specs::Blocks::captured))]
pub(crate) fn captured<'a>(
    interface: &Interface,
    time: Option<u64>,
    direction: Direction,
    frame: &'a [u8],
) -> Content<'a>
    ensures { told result ≡ captured interface.now time direction frame.now }
{
    match message_in(interface.link, frame) {
        Some(message) => Content::Packet(Packet {
            time,
            direction,
            message,
        }),
        None => Content::Other,
    }
}
