//! What is said of personalities that have slots of their own, or those of another one.

use super::FIXTURE;
use rdm_device::{Mode, Particular, Particulars, Personality, Profile, Slot, SlotList};
use rdm_words::put_fixture;
use std::alloc::{AllocError, Global};

/// What is said of a mode with two slots of its own, and of one that has these too, between the slots of the profile and its sensors.
const MODES: &str = r#"
  slot 4: "Tilt fine", fine (01) of slot 2, default 0
  personality 3: "Wide", footprint 4, slots of its own
    slot 0: "Dimmer", primary (00), intensity (0001), default 0
    slot 1: "Dimmer fine", fine (01) of slot 0, default 128
  personality 4: "Narrow", footprint 1, slots of personality 3
  sensor 0: "#;

/// The words of the demonstration fixture with these modes.
fn words(alloc: Global) -> Result<Vec<u8>, AllocError> {
    let mut slots = Vec::with_capacity(alloc, 2)?;
    slots.push(Slot::of(0x00, 0x0001, 0x00, b"Dimmer"))?;
    slots.push(Slot::of(0x01, 0x0000, 0x80, b"Dimmer fine"))?;
    let mut particular = Particular::usual();
    let wide = Mode {
        personality: Personality::of(4, b"Wide"),
        slots_of: 0,
        slots: SlotList::of(slots),
    };
    particular.modes.push(alloc, wide)?;
    let narrow = Mode {
        personality: Personality::of(1, b"Narrow"),
        slots_of: 3,
        slots: SlotList::none(),
    };
    particular.modes.push(alloc, narrow)?;
    let mut profile = Profile::demo(0);
    profile.particulars = Particulars::of(alloc, particular)?;
    let mut said = Vec::new(alloc);
    put_fixture(&mut said, FIXTURE, &profile, &[])?;
    Ok(said)
}

#[test]
fn modes_are_said_with_their_slots(rt: HostRuntime) {
    let said = words(rt.alloc()).expect(&rt, "memory");
    let text = std::str::from_utf8(said.as_slice()).unwrap_or("");
    assert!(rt; text.contains(MODES), "{text}");
}
