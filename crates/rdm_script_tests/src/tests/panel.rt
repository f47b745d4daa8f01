//! The lines of changes at the device's own menu, which no script makes.

use super::traces::prints_event;
use rdm_bus::Event;
use rdm_frame::Body;
use rdm_params::{Change, Message, Plate};

/// A change, of which there is a message or not.
fn event_of(change: Change, told: bool) -> Event {
    let message = Message {
        class: 0x21,
        pid: 0x0082,
        sub: 0,
        body: Body::new(),
    };
    Event::Changed {
        change,
        message: told.then_some(message),
    }
}

/// Labels, whether there is a message, and the trace.
const LABELS: &[(&[u8], bool, &str)] = &[
    (b"Panel", true, "panel label 50616E656C\nend\n"),
    (b"", true, "panel label -\nend\n"),
    (b"", false, "panel label - refused\nend\n"),
];

/// The same of other changes.
const CHANGES: [(Change, bool, &str); 4] = [
    (Change::Start(101), true, "panel start 101\nend\n"),
    (Change::Start(0), false, "panel start 0 refused\nend\n"),
    (Change::Personality(2), true, "panel personality 2\nend\n"),
    (
        Change::Personality(9),
        false,
        "panel personality 9 refused\nend\n",
    ),
];

#[test]
fn prints_changes(rt: HostRuntime) {
    for (text, told, trace) in LABELS {
        let label = Plate::new(text).expect(&rt, "at most 32 bytes");
        prints_event(
            &rt,
            rt.alloc(),
            event_of(Change::Label(label), *told),
            trace,
        );
    }
    for (change, told, trace) in &CHANGES {
        prints_event(&rt, rt.alloc(), event_of(*change, *told), trace);
    }
}
