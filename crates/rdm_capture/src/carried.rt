//! The RDM message in a captured frame.

ghost use Rattle.std.specs.Prelude.{◌≡◌, Option, List, ℕ};
ghost use Rattle.std.specs.Option.{option_map};
ghost use Rattle.rdm_capture.specs.Carried.{behind, upper_message, ip_packet, datagram, payload, art_message, without_start, message_in, tags, padded_tags, art_rdm};

use crate::order::{behind, front, word_at};
use crate::packet::{Link, Order};

/// The tags in front of a frame whose protocol is named: its name is `rdm`.
const TAGS: [u8; 11] = [0, 12, 0, 3, b'r', b'd', b'm', 0, 0, 0, 0];

/// The same, with the name padded to four bytes.
pub(crate) const PADDED_TAGS: [u8; 12] = [0, 12, 0, 4, b'r', b'd', b'm', 0, 0, 0, 0, 0];

/// How an ArtRdm packet begins: the name of the protocol, and the OpCode 0x8300.
const ART_RDM: [u8; 10] = *b"Art-Net\0\0\x83";

/// How many bytes of an ArtRdm packet lie between these and the message.
const ART_BYTES: usize = 14;

const ART_NET_PORT: u16 = 6454;

const IPV4: u16 = 0x0800;

const VLAN: u16 = 0x8100;

const UDP: u8 = 17;

const START_CODE: u8 = 0xCC;

/// The slots behind the START code of the RDM message in a frame, if it carries one.
#[tactic(auto, unfolding(crate::specs::Carried::message_in))]
pub(crate) fn message_in(link: Link, frame: &[u8]) -> Option<&[u8]>
    ensures { option_map (λ m. m.now) result ≡ message_in link frame.now }
{
    match link {
        Link::UpperPdu => upper_message(frame),
        Link::Ethernet => Some(without_start(art_message(frame)?)),
        Link::Other => None,
    }
}

/// What stands behind the tags, if they name RDM.
#[tactic(auto, unfolding(crate::specs::Carried::upper_message))]
fn upper_message(frame: &[u8]) -> Option<&[u8]>
    ensures { option_map (λ m. m.now) result ≡ upper_message frame.now }
{
    if let Some(message) = behind_text(frame, &TAGS) {
        return Some(message);
    }
    behind_text(frame, &PADDED_TAGS)
}

/// What stands behind a text, if the bytes begin with it.
fn behind_text<'a>(bytes: &'a [u8], text: &[u8]) -> Option<&'a [u8]>
    ensures { option_map (λ m. m.now) result ≡ behind text.now bytes.now }
{
    if front(bytes, text.len()) == text {
        Some(behind(bytes, text.len()))
    } else {
        None
    }
}

/// The message of an ArtRdm packet, if an Ethernet frame has one.
#[tactic(auto, unfolding(crate::specs::Carried::art_message))]
fn art_message(frame: &[u8]) -> Option<&[u8]>
    ensures { option_map (λ m. m.now) result ≡ art_message frame.now }
{
    let packet = ip_packet(frame)?;
    let udp = datagram(packet)?;
    let art = payload(udp)?;
    let rest = behind_text(art, &ART_RDM)?;
    Some(behind(rest, ART_BYTES))
}

/// The IPv4 packet in an Ethernet frame, behind a VLAN tag or none.
#[tactic(auto, unfolding(crate::specs::Carried::ip_packet))]
fn ip_packet(frame: &[u8]) -> Option<&[u8]>
    ensures { option_map (λ m. m.now) result ≡ ip_packet frame.now }
{
    if frame.len() < 18 {
        return None;
    }
    let kind = word_at(Order::Big, frame, 12);
    if kind == IPV4 {
        return Some(behind(frame, 14));
    }
    if kind == VLAN && word_at(Order::Big, frame, 16) == IPV4 {
        return Some(behind(frame, 18));
    }
    None
}

/// The UDP datagram in an IPv4 packet that is no fragment.
#[tactic(auto, unfolding(crate::specs::Carried::datagram))]
fn datagram(packet: &[u8]) -> Option<&[u8]>
    ensures { option_map (λ m. m.now) result ≡ datagram packet.now }
{
    if packet.len() < 20 {
        return None;
    }
    let whole = word_at(Order::Big, packet, 6) % 16384 == 0;
    if packet[0] / 16 == 4 && packet[9] == UDP && whole {
        let size = usize::from(packet[0] % 16) * 4;
        if size >= 20 {
            return Some(behind(packet, size));
        }
    }
    None
}

/// What a datagram to the port of Art-Net carries.
#[tactic(auto, unfolding(crate::specs::Carried::payload))]
fn payload(datagram: &[u8]) -> Option<&[u8]>
    ensures { option_map (λ m. m.now) result ≡ payload datagram.now }
{
    if datagram.len() < 8 {
        return None;
    }
    if word_at(Order::Big, datagram, 2) != ART_NET_PORT {
        return None;
    }
    let size = usize::from(word_at(Order::Big, datagram, 4));
    Some(behind(front(datagram, size), 8))
}

/// A message without the START code, which some nodes leave in front of it.
#[tactic(auto, unfolding(crate::specs::Carried::without_start))]
fn without_start(message: &[u8]) -> &[u8]
    ensures { result.now ≡ without_start message.now }
{
    match message {
        [START_CODE, rest @ ..] => rest,
        _ => message,
    }
}
