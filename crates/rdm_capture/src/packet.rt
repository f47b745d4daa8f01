//! What a capture says of one RDM packet.

/// Which way a packet went, seen from the interface that captured it.
#[derive(Clone, Copy, Debug, PartialEq, Eq)]
pub enum Direction {
    /// The capture doesn't say.
    Unknown,
    /// The interface received it.
    Inbound,
    /// The interface sent it.
    Outbound,
}

/// An RDM packet of a capture.
#[derive(Clone, Copy, Debug)]
pub struct Packet<'a> {
    /// When it was captured, in nanoseconds since 1970 UTC. Simple Packet Blocks have no time. A time past the year 2554 is 2 ^ 64 - 1.
    pub time: Option<u64>,
    /// Which way it went.
    pub direction: Direction,
    /// The slots behind the START code 0xCC, from the sub-START code to the checksum. Nothing has tested them.
    pub message: &'a [u8],
}

/// Of which kind the frames of an interface are.
#[derive(Clone, Copy, Debug, PartialEq, Eq)]
pub(crate) enum Link {
    /// Frames of a protocol that is named in front of them: WIRESHARK_UPPER_PDU.
    UpperPdu,
    Ethernet,
    /// Another kind, which carries no RDM that is read here.
    Other,
}

/// How long a tick of the clock is.
#[derive(Clone, Copy, Debug)]
pub(crate) enum Resolution {
    /// 10 to the power of minus this, in seconds.
    Decimal(u32),
    /// 2 to the power of minus this, in seconds.
    Binary(u32),
}

/// An interface that packets were captured on.
#[derive(Clone, Copy, Debug)]
pub(crate) struct Interface {
    pub(crate) link: Link,
    pub(crate) resolution: Resolution,
    /// At most so many bytes of a packet were captured, or all, where it is 0.
    pub(crate) most: u32,
}

/// Of which format a capture is.
#[derive(Clone, Copy, Debug)]
pub(crate) enum Format {
    Pcap,
    Pcapng,
}

/// Which byte of a number comes first.
#[derive(Clone, Copy, Debug)]
pub(crate) enum Order {
    /// The most significant.
    Big,
    /// The least significant.
    Little,
}

/// What a block says.
#[derive(Clone, Copy, Debug)]
pub(crate) enum Content<'a> {
    /// A section begins, whose numbers have this byte order, and no interface is known yet.
    Section(Order),
    /// The next interface of the section.
    Interface(Interface),
    /// An RDM packet.
    Packet(Packet<'a>),
    /// Nothing that is read here.
    Other,
}

/// A block, or a packet of the older format with its header.
#[derive(Clone, Copy, Debug)]
pub(crate) struct Block<'a> {
    /// How many bytes it has.
    pub(crate) size: usize,
    pub(crate) content: Content<'a>,
}
