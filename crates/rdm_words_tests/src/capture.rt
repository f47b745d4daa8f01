//! What no clause says: captures that were made by hand, byte for byte, with the packets that they have.

use rdm_capture::{
    CaptureFault, Direction, Moment, Packet, capture_of, capture_of_packets, is_capture,
    put_header, put_packet, read_capture, trace_of,
};
use rdm_frame::Wire;
use rdm_trace::lines_of;
use std::alloc::Global;
use std::process::Abort;

/// GET DEVICE_INFO from 7FF0:00000001 to 7FF0:00000002, behind the START code.
const MESSAGE: &[u8] =
    b"\x01\x18\x7F\xF0\0\0\0\x02\x7F\xF0\0\0\0\x01\0\x01\0\0\0\x20\0\x60\0\x04\x47";

/// The tags of Wireshark in front of it, as text2pcap writes them.
const TAGS: &[u8] = b"\0\x0C\0\x03rdm\0\0\0\0";

/// The header of a pcap file: little endian, microseconds, link type 252; and that of its packet: at 1.000002 s, 36 bytes.
const PCAP: &[u8] = b"\xD4\xC3\xB2\xA1\x02\0\x04\0\0\0\0\0\0\0\0\0\xFF\xFF\0\0\xFC\0\0\0\
\x01\0\0\0\x02\0\0\0\x24\0\0\0\x24\0\0\0";

/// The header of a pcap file: big endian, nanoseconds, Ethernet; and that of its packet: at 1.000000002 s, 95 bytes.
const ETHERNET: &[u8] = b"\xA1\xB2\x3C\x4D\0\x02\0\x04\0\0\0\0\0\0\0\0\0\0\xFF\xFF\0\0\0\x01\
\0\0\0\x01\0\0\0\x02\0\0\0\x5F\0\0\0\x5F";

/// Addresses, a VLAN tag, an IPv4 header, a UDP header from and to port 6454, and the first 24 bytes of ArtRdm.
const ART_RDM: &[u8] = b"\xFF\xFF\xFF\xFF\xFF\xFF\x02\0\0\0\0\x01\x81\0\0\x05\x08\0\
\x45\0\0\x4D\0\0\x40\0\x40\x11\0\0\x02\0\0\x01\x02\xFF\xFF\xFF\
\x19\x36\x19\x36\0\x39\0\0\
Art-Net\0\0\x83\0\x0E\x01\0\0\0\0\0\0\0\0\0\0\0";

/// A pcapng file, big endian: a section, an interface of link type 252 whose ticks are milliseconds, and a packet at 5 ms.
const SECTION: &[u8] =
    b"\x0A\x0D\x0D\x0A\0\0\0\x1C\x1A\x2B\x3C\x4D\0\x01\0\0\xFF\xFF\xFF\xFF\xFF\xFF\xFF\xFF\0\0\0\x1C\
\0\0\0\x01\0\0\0\x20\0\xFC\0\0\0\0\0\0\0\x09\0\x01\x03\0\0\0\0\0\0\0\0\0\0\x20\
\0\0\0\x06\0\0\0\x50\0\0\0\0\0\0\0\0\0\0\0\x05\0\0\0\x24\0\0\0\x24";

/// The end of that packet, which was sent; and a packet without a time.
const OUTBOUND: &[u8] = b"\0\x02\0\x04\0\0\0\x02\0\0\0\0\0\0\0\x50\0\0\0\x03\0\0\0\x34\0\0\0\x24";

const SIMPLE_END: &[u8] = b"\0\0\0\x34";

/// These parts, one after the other.
fn joined(rt: &impl Abort, alloc: Global, parts: &[&[u8]]) -> Vec<u8> {
    let mut whole = Vec::new(alloc);
    for part in parts {
        whole.extend_from_slice(part).expect(rt, "memory");
    }
    whole
}

/// The file has exactly these packets, which all have that message, and makes no sense from this byte on.
fn has(
    rt: &impl Abort,
    alloc: Global,
    file: &[u8],
    packets: &[(Option<u64>, Direction)],
    fault: Option<usize>,
) {
    let reading = read_capture(alloc, file).expect(rt, "memory");
    assert!(rt; reading.packets.len() == packets.len());
    for (packet, (time, direction)) in reading.packets.iter().zip(packets) {
        assert!(rt; packet.time == *time);
        assert!(rt; packet.direction == *direction);
        assert!(rt; packet.message == MESSAGE);
    }
    assert!(rt; reading.fault == fault.map(|at| CaptureFault { at }));
}

#[test]
fn little_endian_microseconds(rt: HostRuntime) {
    let file = joined(&rt, rt.alloc(), &[PCAP, TAGS, MESSAGE]);
    let packet = (Some(1_000_002_000), Direction::Unknown);
    has(&rt, rt.alloc(), file.as_slice(), &[packet], None);
    assert!(rt; is_capture(file.as_slice()));
    assert!(rt; !is_capture(b"send CC01187FF0000000017FF0000000020601000002200082000471"));
}

#[test]
fn art_rdm_behind_a_vlan_tag(rt: HostRuntime) {
    let file = joined(&rt, rt.alloc(), &[ETHERNET, ART_RDM, MESSAGE]);
    let packet = (Some(1_000_000_002), Direction::Unknown);
    has(&rt, rt.alloc(), file.as_slice(), &[packet], None);
}

#[test]
fn blocks_of_pcapng(rt: HostRuntime) {
    let parts = [SECTION, TAGS, MESSAGE, OUTBOUND, TAGS, MESSAGE, SIMPLE_END];
    let file = joined(&rt, rt.alloc(), &parts);
    let sent = (Some(5_000_000), Direction::Outbound);
    let simple = (None, Direction::Unknown);
    has(&rt, rt.alloc(), file.as_slice(), &[sent, simple], None);
    let (_, cut) = file.as_slice().split_last().expect(&rt, "bytes");
    has(&rt, rt.alloc(), cut, &[sent], Some(140));
}

#[test]
fn written_packets(rt: HostRuntime) {
    let mut file = Vec::new(rt.alloc());
    put_header(&mut file).expect(&rt, "memory");
    put_packet(&mut file, 7, Direction::Inbound, MESSAGE).expect(&rt, "memory");
    put_packet(&mut file, u64::MAX, Direction::Unknown, MESSAGE).expect(&rt, "memory");
    let first = (Some(7), Direction::Inbound);
    let last = (Some(u64::MAX), Direction::Unknown);
    has(&rt, rt.alloc(), file.as_slice(), &[first, last], None);
}

/// A packet: when and which way it went, and its slots.
type Row = (u64, Direction, &'static [u8]);

/// Traces, with the packets of their captures.
const CAPTURED: &[(&str, &[Row])] = &[
    (
        "send CC0102\nreply CC0304\n",
        &[
            (0, Direction::Outbound, b"\x01\x02"),
            (0, Direction::Inbound, b"\x03\x04"),
        ],
    ),
    // A lost request was sent, and a time counts up to the next.
    (
        "# 1.250 s\nsend CC01 lost-request\nreply none\nheard nothing\n# 2.000 s\nsend CC02\nreply CC03\n",
        &[
            (1_250_000_000, Direction::Outbound, b"\x01"),
            (2_000_000_000, Direction::Outbound, b"\x02"),
            (2_000_000_000, Direction::Inbound, b"\x03"),
        ],
    ),
    // A lost reply wasn't heard, but the next one was.
    (
        "send CC01 lost-reply\nreply CC02\nsend CC03\nreply CC04\n",
        &[
            (0, Direction::Outbound, b"\x01"),
            (0, Direction::Outbound, b"\x03"),
            (0, Direction::Inbound, b"\x04"),
        ],
    ),
    // What was heard was altered, what was sent wasn't.
    (
        "send CC01 bad-reply 1 255\nreply CC02\nsend CC05 bad-request 1 1\nreply none\n",
        &[
            (0, Direction::Outbound, b"\x01"),
            (0, Direction::Inbound, b"\x01"),
            (0, Direction::Outbound, b"\x05"),
        ],
    ),
    // Without its START code no reply is a packet, unless it begins behind that.
    (
        "send CC01 bad-reply 0 1\nreply CC02\nsend CC\nreply FEFEAA\nsend 0107\n",
        &[
            (0, Direction::Outbound, b"\x01"),
            (0, Direction::Outbound, b""),
            (0, Direction::Outbound, b"\x01\x07"),
        ],
    ),
    (
        "found 7FF0:00000001\njob 0 1\narrive 0 1 done\npanel start 5\nmessage 21 0030 0000 -\nend\n",
        &[],
    ),
];

#[test]
fn traces_as_captures(rt: HostRuntime) {
    for (trace, rows) in CAPTURED {
        let lines = lines_of(rt.alloc(), trace.as_bytes()).expect(&rt, "a trace");
        let file = capture_of(rt.alloc(), lines.as_slice()).expect(&rt, "memory");
        says(&rt, rt.alloc(), trace, file.as_slice(), rows);
    }
}

/// The capture of a trace has exactly these packets.
fn says(rt: &impl Abort, alloc: Global, trace: &str, file: &[u8], rows: &[Row]) {
    let reading = read_capture(alloc, file).expect(rt, "memory");
    assert!(rt;
        reading.packets.len() == rows.len() && reading.fault.is_none(),
        "{trace}"
    );
    for (packet, (time, direction, message)) in reading.packets.iter().zip(rows) {
        assert!(rt; packet.time == Some(*time), "{trace}");
        assert!(rt; packet.direction == *direction, "{trace}");
        assert!(rt; packet.message == *message, "{trace}");
    }
}

/// A message whose command class is that of a response, and no more.
const RESPONSE: &[u8] = b"\0\0\0\0\0\0\0\0\0\0\0\0\0\0\0\0\0\0\0\x21";

/// A packet without a time, two with one, and one that is before the first.
const PACKETS: &[(Option<u64>, &[u8])] = &[
    (None, b"\x01"),
    (Some(7_000_001), b""),
    (Some(9_000_000), RESPONSE),
    (Some(5), b"\xFE"),
];

const TRACE: &str = "send CC01
# 0.000 s
send CC
# 0.001 s
reply CC0000000000000000000000000000000000000021
# 0.000 s
send CCFE
";

#[test]
fn packets_as_a_trace(rt: HostRuntime) {
    let mut packets = Vec::new(rt.alloc());
    for (time, message) in PACKETS {
        let packet = Packet {
            time: *time,
            direction: Direction::Unknown,
            message,
        };
        packets.push(packet).expect(&rt, "memory");
    }
    let trace = trace_of(rt.alloc(), packets.as_slice()).expect(&rt, "memory");
    assert!(rt; trace.as_slice() == TRACE.as_bytes());
}

#[test]
fn packets_written_again(rt: HostRuntime) {
    let parts = [SECTION, TAGS, MESSAGE, OUTBOUND, TAGS, MESSAGE, SIMPLE_END];
    let file = joined(&rt, rt.alloc(), &parts);
    let reading = read_capture(rt.alloc(), file.as_slice()).expect(&rt, "memory");
    let again = capture_of_packets(rt.alloc(), reading.packets.as_slice()).expect(&rt, "memory");
    let sent = (Some(5_000_000), Direction::Outbound);
    let simple = (Some(0), Direction::Unknown);
    has(&rt, rt.alloc(), again.as_slice(), &[sent, simple], None);
}

#[test]
fn frames_of_nobody(rt: HostRuntime) {
    let mut file = Vec::new(rt.alloc());
    put_header(&mut file).expect(&rt, "memory");
    let moment = Moment::first();
    for message in [MESSAGE, RESPONSE] {
        let slots = joined(&rt, rt.alloc(), &[b"\xCC", message]);
        let bytes = Wire::from_slice(slots.as_slice()).expect(&rt, "a frame");
        moment.put_bytes(&mut file, &bytes).expect(&rt, "memory");
    }
    let rows = [
        (0, Direction::Outbound, MESSAGE),
        (0, Direction::Inbound, RESPONSE),
    ];
    says(&rt, rt.alloc(), "frames", file.as_slice(), &rows);
}
