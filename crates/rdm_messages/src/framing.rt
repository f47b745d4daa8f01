//! Messages of the interface, and their bytes: 0x7E, the label, the length of the body (low byte first), the body, and 0xE7.

ghost use Rattle.std.specs.Prelude.{◌≡◌, ◌≤◌, length, slice_index};
ghost use Rattle.rdm_messages.specs.Framing.{IsFront, message_bytes};

use rdm_frame::Bytes;

/// How many bytes the body of a message has at most.
pub const MOST_BODY: usize = 600;

/// How many bytes a message has at most.
pub const MOST_BYTES: usize = 605;

/// How many bytes of a message aren't its body.
pub const FRAME_BYTES: usize = 5;

/// How many bytes of a message come before its body.
const HEAD_BYTES: usize = 4;

const START: u8 = 0x7E;

const END: u8 = 0xE7;

/// The bytes of a message, or a part of them.
pub type Packet = Bytes<MOST_BYTES>;

/// A message that stands in a buffer.
#[derive(Clone, Copy, Debug)]
pub struct MessageView<'a> {
    /// What the message is about.
    pub label: u8,
    /// What it says.
    pub body: &'a [u8],
}

/// What stands at the front of a buffer.
#[derive(Clone, Copy, Debug)]
pub enum Front<'a> {
    /// The beginning of a message: more must be read.
    Unfinished,
    /// A byte with which no message begins, whatever may come.
    Stray,
    /// A message.
    Whole(MessageView<'a>),
}

/// What stands at the front of these bytes.
pub fn front_of(bytes: &[u8]) -> Front<'_>
    ensures { IsFront bytes.now result }
{
    if bytes.is_empty() {
        return Front::Unfinished;
    }
    if bytes[0] != START {
        return Front::Stray;
    }
    if bytes.len() < HEAD_BYTES {
        return Front::Unfinished;
    }
    front_with_head(bytes)
}

/// What stands at the front of these bytes, which begin as a message does and reach beyond its length.
fn front_with_head(bytes: &[u8]) -> Front<'_>
    requires head { 4 ≤ length bytes.now }
    requires start { slice_index bytes.now 0 ≡ 0x7E }
    ensures { IsFront bytes.now result }
{
    let size = usize::from(bytes[2]) + 256 * usize::from(bytes[3]);
    if size > MOST_BODY {
        return Front::Stray;
    }
    let tail = &bytes[HEAD_BYTES..];
    if tail.len() <= size {
        return Front::Unfinished;
    }
    if tail[size] != END {
        return Front::Stray;
    }
    Front::Whole(MessageView {
        label: bytes[1],
        body: &tail[..size],
    })
}

/// The bytes of the message with this label and this body.
pub fn packet_of(label: u8, body: &[u8]) -> Packet
    requires { length body.now ≤ 600 }
    ensures { result ≡ message_bytes (record { label = label; body = body.now }) }
{
    let size = body.len();
    let mut packet = Bytes::new();
    packet.append(&[START, label, (size % 256) as u8, (size / 256) as u8]);
    packet.append(body);
    packet.append(&[END]);
    packet
}
