//! Writing a pcapng file.

ghost use Rattle.std.specs.Prelude.{◌≡◌, ◌+◌, ◌<◌, ◌≤◌, ◌^◌, ◌++◌, length, replicate, OnOk};
ghost use Rattle.rdm_capture.specs.Written.{header, packet, flags_of, head_text, tail_text};

use crate::options::padded;
use crate::packet::Direction;
use std::alloc::AllocError;

/// What stands in front of the packets of a file: a section whose numbers have their least significant byte first, and an interface for
/// RDM packets, whose ticks are nanoseconds.
const HEADER: [u8; 60] = [
    0x0A, 0x0D, 0x0D, 0x0A, 28, 0, 0, 0, 0x4D, 0x3C, 0x2B, 0x1A, 1, 0, 0, 0, 255, 255, 255, 255,
    255, 255, 255, 255, 28, 0, 0, 0, 1, 0, 0, 0, 32, 0, 0, 0, 252, 0, 0, 0, 0, 0, 0, 0, 9, 0, 1, 0,
    9, 0, 0, 0, 0, 0, 0, 0, 32, 0, 0, 0,
];

/// How many bytes the block of a packet has beside its message.
const BESIDE_MESSAGE: u32 = 56;

/// How many bytes the tags have in front of the message.
const TAGS_BYTES: u32 = 12;

/// Puts what stands in front of the packets of a file at the end of a list.
#[tactic(auto, unfolding(crate::specs::Written::header))]
pub fn put_header(out: &mut Vec<u8>) -> Result<(), AllocError>
    ensures { OnOk result (out.new.items ≡ out.old.items ++ header) }
{
    out.extend_from_slice(&HEADER)
}

/// Puts a packet at the end of a list: its time in nanoseconds since 1970 UTC, which way it went, and the slots behind its START code.
pub fn put_packet(
    out: &mut Vec<u8>,
    time: u64,
    direction: Direction,
    message: &[u8],
) -> Result<(), AllocError>
    requires { length message.now < 2 ^ 16 }
    ensures { OnOk result (out.new.items ≡ out.old.items ++ packet (record { time = time; direction = direction; message = message.now })) }
{
    let most = padded(message.len());
    let size = BESIDE_MESSAGE + most as u32;
    let count = TAGS_BYTES + message.len() as u32;
    out.extend_from_slice(&head(size, time, count))?;
    out.extend_from_slice(message)?;
    out.extend_from_slice(zeros(most - message.len()))?;
    out.extend_from_slice(&tail(size, direction))?;
    Ok(())
}

/// What stands in front of the message: the type and the length of the block, the first interface, the time, how many bytes are captured
/// and how many there were, and the tags.
fn head(size: u32, time: u64, count: u32) -> [u8; 40]
    ensures { result ≡ head_text size time count }
{
    let [a, b, c, d] = size.to_le_bytes();
    let [e, f, g, h] = ((time / 4_294_967_296) as u32).to_le_bytes();
    let [i, j, k, l] = ((time % 4_294_967_296) as u32).to_le_bytes();
    let [m, n, o, p] = count.to_le_bytes();
    [
        6, 0, 0, 0, a, b, c, d, 0, 0, 0, 0, e, f, g, h, i, j, k, l, m, n, o, p, m, n, o, p, 0, 12,
        0, 4, b'r', b'd', b'm', 0, 0, 0, 0, 0,
    ]
}

/// So many zeros.
fn zeros(count: usize) -> &'static [u8]
    requires { count ≤ 3 }
    ensures { result.now ≡ replicate count 0 }
{
    match count {
        0 => &[],
        1 => &[0],
        2 => &[0, 0],
        _ => &[0, 0, 0],
    }
}

/// What stands behind the message: the option with the direction, and the length of the block again.
fn tail(size: u32, direction: Direction) -> [u8; 16]
    ensures { result ≡ tail_text size direction }
{
    let [a, b, c, d] = size.to_le_bytes();
    [
        2,
        0,
        4,
        0,
        flags_of(direction),
        0,
        0,
        0,
        0,
        0,
        0,
        0,
        a,
        b,
        c,
        d,
    ]
}

/// The direction, as the option of a block says it.
fn flags_of(direction: Direction) -> u8
    ensures { result ≡ flags_of direction }
{
    match direction {
        Direction::Unknown => 0,
        Direction::Inbound => 1,
        Direction::Outbound => 2,
    }
}
