//! Changes at the fixture's own menu.

use super::fitting::plays_on;
use super::*;

/// Each change is told of exactly where it is taken, and a GET reads what its message says. A sub-device stays as it was.
const TURNED: &str = "
turn personality 3 = refused 00E0 01 02
turn personality 0 = refused 00E0 01 02
turn personality 2 = taken 00E0 02 02
turn start 0 = refused 00F0 00 01
turn start 101 = taken 00F0 00 65
turn start 513 = refused 00F0 00 65
turn start 512 = taken 00F0 02 00
turn start 1 = taken 00F0 00 01
turn label 'Panel' = taken 0082 'Panel'
turn label FFFFFFFFFFFFFFFFFFFFFFFFFFFFFFFFFFFFFFFFFFFFFFFFFFFFFFFFFFFFFFFF = taken 0082 \
    FFFFFFFFFFFFFFFFFFFFFFFFFFFFFFFFFFFFFFFFFFFFFFFFFFFFFFFFFFFFFFFF
turn label = taken 0082
get 0001 0082 = ack 'Cell'
get 0001 00E0 = ack 01 01
get 0001 00F0 = ack 00 01
";

#[test]
fn changes_have_the_ranges_of_a_set(rt: HostRuntime) {
    plays_on(&rt, rt.alloc(), &["subs 1"], TURNED);
}

/// The root's third personality uses no slots.
const NO_SLOTS: &str = "
turn start 512 = taken 00F0 02 00
turn personality 3 = taken 00E0 03 03
turn start 0 = refused 00F0 FF FF
turn start 1 = refused 00F0 FF FF
turn start 512 = refused 00F0 FF FF
turn start 513 = refused 00F0 FF FF
turn personality 1 = taken 00E0 01 03
turn start 1 = taken 00F0 00 01
";

#[test]
fn without_slots_no_start_address_is_taken(rt: HostRuntime) {
    plays_on(&rt, rt.alloc(), &["root personality 0"], NO_SLOTS);
}

#[test]
fn plates_are_texts_of_up_to_32_bytes(rt: HostRuntime) {
    assert!(rt; Plate::new(&[0; 33]).is_none());
    let plate = Plate::new(b"A").expect(&rt, "a short text");
    assert!(rt; plate.as_slice() == b"A".as_slice());
    assert!(rt; Some(plate) != Plate::new(b"A\0"));
    let change = Change::Label(plate);
    assert!(rt; change == Change::Label(plate) && change.kind() == Kind::DeviceLabel);
}
