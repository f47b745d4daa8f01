//! Reading a capture, block by block.

ghost use Rattle.std.specs.Prelude.{◌≡◌, ◌<◌, ◌≤◌, ◌+◌, ◌++◌, ◌↔◌, [], length, map, IfOk, OnOk, IfSome, IsTrue, IsSome};
ghost use Rattle.std.specs.Option.{option_map};
ghost use Rattle.rdm_capture.specs.Packets.{seen, told, piece};
ghost use Rattle.rdm_capture.specs.Captures.{Known, after, with_packet, piece_at, start_of, pcap_start, digits_of, HasPackets, Reads, fault_at, start_said, place_known};

use crate::order::{behind, long_at};
use crate::packet::{Block, Content, Format, Interface, Order, Packet, Resolution};
use crate::pcap::record_at;
use crate::pcapng::{SECTION, block_at, link_of};
use std::alloc::{AllocError, Global};
use thiserror::Error;

/// Where a capture makes no sense: no whole block or packet stands there, or what stands there contradicts itself.
#[derive(Clone, Copy, Debug, PartialEq, Eq, Error)]
#[error("this isn't a valid capture from byte {at} on")]
pub struct CaptureFault {
    /// The byte, counted from 0.
    pub at: usize,
}

/// What a capture has.
#[derive(Debug, Drop)]
pub struct Reading<'a> {
    /// Its RDM packets, in the file's order.
    pub packets: Vec<Packet<'a>>,
    /// Where it makes no sense, if not all of it does. The packets are those before that byte.
    pub fault: Option<CaptureFault>,
}

/// How many bytes a pcap file has in front of its packets. A Section Header Block has more.
const HEADER_BYTES: usize = 24;

/// The first number of a pcap file whose ticks are microseconds.
const MICROSECONDS: u32 = 0xA1B2_C3D4;

/// The first number of a pcap file whose ticks are nanoseconds.
const NANOSECONDS: u32 = 0xA1B2_3C4D;

/// What the first bytes of a file say.
#[derive(Clone, Copy, Debug)]
struct Start {
    format: Format,
    order: Order,
    /// The one interface of a pcap file.
    interface: Option<Interface>,
    /// Where the blocks begin.
    size: usize,
}

/// Whether these bytes begin as a capture does. It takes 24 bytes to tell.
pub fn is_capture(bytes: &[u8]) -> bool
    ensures { IsTrue result ↔ IsSome (start_of bytes.now) }
{
    start_of(bytes).is_some()
}

/// The RDM packets of a capture. What isn't RDM is passed over.
#[tactic(auto, unfolding(crate::specs::Captures::HasPackets))]
pub fn read_capture(alloc: Global, bytes: &[u8]) -> Result<Reading<'_>, AllocError>
    ensures { IfOk result (λ reading. HasPackets bytes.now (map seen reading.packets.items) (fault_at reading.fault)) }
{
    match start_of(bytes) {
        Some(start) => read_from(alloc, start, bytes),
        None => Ok(Reading {
            packets: Vec::new(alloc),
            fault: Some(CaptureFault { at: 0 }),
        }),
    }
}

/// What is known in front of a block.
#[derive(Drop)]
struct Place {
    format: Format,
    order: Order,
    interfaces: Vec<Interface>,
}

/// What a file's first bytes say.
fn place_of(alloc: Global, start: Start) -> Result<Place, AllocError>
    ensures { IfOk result (λ place. place_known place ≡ (start_said start).known) }
{
    let mut interfaces = Vec::new(alloc);
    match start.interface {
        None => {}
        Some(interface) => interfaces.push(interface)?,
    }
    Ok(Place {
        format: start.format,
        order: start.order,
        interfaces,
    })
}

/// The packets of a capture that begins so.
#[tactic(auto, using(crate::proofs::Going::going_first))]
fn read_from(alloc: Global, start: Start, bytes: &[u8]) -> Result<Reading<'_>, AllocError>
    ensures { IfOk result (λ reading. Reads bytes.now (start_said start).known start.size (map seen reading.packets.items) (fault_at reading.fault)) }
{
    let mut place = place_of(alloc, start)?;
    let mut packets = Vec::new(alloc);
    let mut at = start.size;
    while at < bytes.len() {
        match piece_at(&place, behind(bytes, at)) {
            None => {
                return Ok(Reading {
                    packets,
                    fault: Some(CaptureFault { at }),
                });
            }
            Some(block) => {
                learn(&mut place, &mut packets, block.content)?;
                at += block.size;
            }
        }
    }
    Ok(Reading {
        packets,
        fault: None,
    })
}

/// Takes what a block says.
fn learn<'a>(
    place: &mut Place,
    packets: &mut Vec<Packet<'a>>,
    content: Content<'a>,
) -> Result<(), AllocError>
    ensures known { OnOk result (place_known place.new ≡ after (place_known place.old) (told content.entry)) }
    ensures packets { OnOk result (map seen packets.new.items ≡ map seen packets.old.items ++ with_packet (told content.entry) []) }
{
    match content {
        Content::Section(order) => {
            place.order = order;
            place.interfaces.clear();
            Ok(())
        }
        Content::Interface(interface) => {
            place.interfaces.push(interface)?;
            Ok(())
        }
        Content::Packet(packet) => {
            packets.push(packet)?;
            Ok(())
        }
        Content::Other => Ok(()),
    }
}

/// The block at the front, if one stands there.
fn piece_at<'a>(place: &Place, bytes: &'a [u8]) -> Option<Block<'a>>
    ensures value { option_map piece result ≡ piece_at (place_known place.now) bytes.now }
    ensures some { IfSome result (λ b. 0 < b.size) }
    ensures within { IfSome result (λ b. b.size ≤ length bytes.now) }
{
    match place.format {
        Format::Pcap => match place.interfaces.as_slice() {
            [] => None,
            [interface, ..] => record_at(place.order, interface, bytes),
        },
        Format::Pcapng => block_at(place.order, place.interfaces.as_slice(), bytes),
    }
}

/// How a file begins, if it is a capture.
#[tactic(auto, unfolding(crate::specs::Captures::start_of))]
fn start_of(bytes: &[u8]) -> Option<Start>
    ensures { option_map start_said result ≡ start_of bytes.now }
{
    if bytes.len() < HEADER_BYTES {
        return None;
    }
    if long_at(Order::Big, bytes, 0) == SECTION {
        return Some(Start {
            format: Format::Pcapng,
            order: Order::Little,
            interface: None,
            size: 0,
        });
    }
    if let Some(digits) = digits_of(long_at(Order::Little, bytes, 0)) {
        return Some(pcap_start(Order::Little, digits, bytes));
    }
    let digits = digits_of(long_at(Order::Big, bytes, 0))?;
    Some(pcap_start(Order::Big, digits, bytes))
}

/// How a pcap file begins, with numbers in this byte order and times of so many digits.
fn pcap_start(order: Order, digits: u32, bytes: &[u8]) -> Start
    requires { 24 ≤ length bytes.now }
    ensures { start_said result ≡ pcap_start order digits bytes.now }
{
    Start {
        format: Format::Pcap,
        order,
        interface: Some(Interface {
            link: link_of(long_at(order, bytes, 20) % 65536),
            resolution: Resolution::Decimal(digits),
            most: 0,
        }),
        size: HEADER_BYTES,
    }
}

/// How many digits of a second the times of a pcap file have, by its first number.
fn digits_of(magic: u32) -> Option<u32>
    ensures { result ≡ digits_of magic }
{
    if magic == MICROSECONDS {
        return Some(6);
    }
    if magic == NANOSECONDS {
        return Some(9);
    }
    None
}
