//! The front panel of docs/FIXTURES.md, as its text has it. What is sent was worked out by hand.

use super::{DEVICE as FIXTURE, bytes_of};
use rdm_frame::{Body, Wire};
use rdm_params::{Change, Message, Profile};
use rdm_responder::Responder;
use std::test::Fail;

/// QUEUED_MESSAGE, asked for by the console.
const QUEUED_MESSAGE: &str = "CC01197FF0000000017FF00000000200010000002000200102040B";

/// What it is answered: the new start address.
const START_ADDRESS_MESSAGE: &str = "CC011A7FF0000000027FF00000000100000000002100F00200650540";

#[test]
fn a_fixture_tells_what_its_menu_changed(rt: HostRuntime) -> Result<(), Fail> {
    let starts_at_101 = Message {
        class: 0x21,
        pid: 0x00F0,
        sub: 0,
        body: Body::of(&[0, 101]),
    };
    let queued_message = bytes_of(&rt, rt.alloc(), QUEUED_MESSAGE);
    let message = bytes_of(&rt, rt.alloc(), START_ADDRESS_MESSAGE);
    let start_address_message = Wire::from_slice(&message).expect(&rt, "a frame");

    // There is room for one message.
    let mut responder = Responder::new(rt.alloc(), FIXTURE, Profile::demo(0), 1)?;
    // A person sets the start address to 101. The console isn't told yet.
    let told = responder.change(Change::Start(101))?;
    assert_eq!(rt; told, Some(starts_at_101));
    // Until it is there is no room for a further change: the menu keeps the old value.
    assert!(rt; !responder.room());
    assert!(rt; responder.change(Change::Personality(2)).is_err());
    // The console polls, and hears of the new start address.
    let (reply, _) = responder.step(queued_message.as_slice());
    assert_eq!(rt; reply, Some(start_address_message));
    // There are two personalities. A third is out of range: nothing changes, and nobody is told.
    assert_eq!(rt; responder.change(Change::Personality(3))?, None);
    Ok(())
}
