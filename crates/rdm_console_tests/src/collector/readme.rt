//! The consoles of docs/CONSOLES.md, as its text has them. What is sent was worked out by hand.

use super::{CONTROLLER as CONSOLE, DEVICE as FIXTURE, command};
use rdm_collector::{
    Action, Collector, DeviceCollector, DeviceHeard, Heard, Response, Want, first_message,
    join_data,
};
use std::alloc::Global;
use std::process::Abort;
use std::test::Fail;

/// A request, and the reply that comes back on the port, if one does.
type Exchange = (&'static str, Option<&'static str>);

/// SET LAMP_STATE is answered by ACK_TIMER. The answer to the first poll is lost, and the second fetches it again.
const TRAFFIC: [Exchange; 3] = [
    (
        "CC01197FF0000000017FF000000002000100000030040301010401",
        Some("CC011A7FF0000000027FF00000000100010000003104030200320435"),
    ),
    (
        "CC01197FF0000000017FF00000000201010000002000200102040C",
        None,
    ),
    (
        "CC01197FF0000000017FF00000000202010000002000200101040C",
        Some("CC01187FF0000000027FF0000000010200000000310403000400"),
    ),
];

/// The NACK of SET LAMP_STATE comes when it is polled for, with the reason of a hardware fault. The supported parameters come in
/// two parts, and the second is lost at first.
const OTHER_TRAFFIC: [Exchange; 4] = [
    (
        "CC01197FF0000000017FF00000000200010000002000200102040B",
        Some("CC011A7FF0000000027FF00000000100020000003104030200020406"),
    ),
    (
        "CC01197FF0000000017FF00000000201010000002000200102040C",
        Some("CC011C7FF0000000027FF000000001010300000021005004006000800523"),
    ),
    (
        "CC01197FF0000000017FF00000000202010000002000200102040D",
        None,
    ),
    (
        "CC01197FF0000000017FF00000000203010000002000200101040D",
        Some("CC011A7FF0000000027FF00000000103000000002100500200F0052E"),
    ),
];

/// What it collects: the response type of each message, and its data.
const COLLECTED: [(Response, &[u8]); 2] = [
    (Response::Nack { reason: 2 }, &[0x00, 0x02]),
    (Response::Ack, &[0x00, 0x60, 0x00, 0x80, 0x00, 0xF0]),
];

/// A port on which this traffic is expected.
#[derive(Drop)]
struct Port<'a> {
    alloc: Global,
    traffic: &'a [Exchange],
    sent: usize,
}

impl Port<'_> {
    /// Sends a request, which must be the next of the traffic.
    fn send(&mut self, bytes: &[u8]) -> Result<(), Fail> {
        let (expected, _) = self.traffic.get(self.sent).ok_or("no request is expected")?;
        let text = hex::encode_upper(self.alloc, bytes)?;
        (text.as_str() == *expected)
            .then_some(())
            .ok_or("another request")?;
        self.sent = self.sent.saturating_add(1);
        Ok(())
    }

    /// The reply to the last request, if one comes in time.
    fn receive(&self) -> Result<Option<Vec<u8>>, Fail> {
        let (_, reply) = self
            .traffic
            .get(self.sent.saturating_sub(1))
            .ok_or("no reply is expected")?;
        match reply {
            Some(text) => Ok(Some(hex::decode(self.alloc, text)?)),
            None => Ok(None),
        }
    }
}

#[test]
fn a_console_collects_over_its_own_port(rt: HostRuntime) -> Result<(), Fail> {
    let mut port = Port {
        alloc: rt.alloc(),
        traffic: &TRAFFIC,
        sent: 0,
    };
    let mut console = Collector::new(rt.alloc(), CONSOLE, FIXTURE, Want::Advisory);
    collects(&rt, &mut port, &mut console)
}

/// A console sends a command, and collects what comes of it.
fn collects(rt: &impl Abort, port: &mut Port<'_>, console: &mut Collector) -> Result<(), Fail> {
    let set_lamp_on = command(rt, Action::Set, 0x0403, &[1]);
    // A command of the user. The reply is ACK_TIMER: the result will wait in the fixture's queue.
    let request = console.ask(&set_lamp_on)?;
    port.send(request.as_slice())?;
    if let Some(bytes) = port.receive()? {
        assert_eq!(rt; console.hear(&bytes), Heard::Reply);
    }
    console.over();
    // Two polls. The first reply is lost, so the second asks for the last message again.
    for _ in 0..2 {
        let request = console.poll()?;
        port.send(request.as_slice())?;
        if let Some(bytes) = port.receive()? {
            assert_eq!(rt; console.hear(&bytes), Heard::Message);
        }
        console.over();
    }
    // The message isn't lost: the response to SET LAMP_STATE is there, once.
    for message in console.recorded() {
        let said = (message.class, message.pid, message.sub);
        assert_eq!(rt; said, (0x31, 0x0403, 0));
    }
    assert_eq!(rt; console.recorded().len(), 1);
    Ok(())
}

#[test]
fn a_console_collects_from_any_device(rt: HostRuntime) -> Result<(), Fail> {
    let mut port = Port {
        alloc: rt.alloc(),
        traffic: &OTHER_TRAFFIC,
        sent: 0,
    };
    let mut data = Vec::new(rt.alloc());
    let mut console = DeviceCollector::new(rt.alloc(), CONSOLE, FIXTURE, Want::Advisory);
    collects_all(&rt, &mut port, &mut console, &mut data)
}

/// A console polls, and then looks at what it collected.
fn collects_all(
    rt: &impl Abort,
    port: &mut Port<'_>,
    console: &mut DeviceCollector,
    data: &mut Vec<u8>,
) -> Result<(), Fail> {
    polls(rt, port, console)?;
    for (response, bytes) in COLLECTED {
        shows(rt, console, data, response, bytes)?;
    }
    assert!(rt; console.recorded().is_empty());
    Ok(())
}

fn polls(rt: &impl Abort, port: &mut Port<'_>, console: &mut DeviceCollector) -> Result<(), Fail> {
    // Four polls. The first is answered by a NACK that waited in the queue, the second by a part of a message, the third is lost.
    for _ in 0..4 {
        let request = console.poll()?;
        port.send(request.as_slice())?;
        if let Some(bytes) = port.receive()? {
            let heard = console.hear(&bytes);
            assert!(rt; heard == DeviceHeard::Message || heard == DeviceHeard::Part);
        }
        console.over();
    }
    Ok(())
}

fn shows(
    rt: &impl Abort,
    console: &mut DeviceCollector,
    data: &mut Vec<u8>,
    response: Response,
    bytes: &[u8],
) -> Result<(), Fail> {
    // What was collected, a message at a time: its response type, and the data of all its parts.
    let items = first_message(console.recorded()).ok_or("no message")?;
    join_data(items, data)?;
    let last = items.last().ok_or("no message")?;
    assert_eq!(rt; last.response, response);
    assert_eq!(rt; data.as_slice(), bytes);
    let count = items.len();
    console.forget(count);
    Ok(())
}
