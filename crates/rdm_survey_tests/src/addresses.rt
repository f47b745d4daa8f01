//! What no clause says: proposals and tables that were worked out by hand (E1.20 sections 9, 10.5.1 and 10.6.3).

use rdm_addresses::{Assignment, ProposalError, propose, put_assignment, put_heading};
use rdm_frame::Uid;
use rdm_survey::{DeviceInfo, Row, SubDevice};
use std::alloc::{AllocError, Global};
use std::process::Abort;

/// A sub-device: its number, its start address and its footprint.
type Sub = (u16, Option<u16>, u16);

/// The UID of a device of manufacturer 7FF0.
fn uid_of(device: u32) -> Uid {
    Uid {
        maker: 0x7FF0,
        device,
    }
}

/// What a root of this start address and footprint tells.
fn info_of(address: Option<u16>, footprint: u16) -> DeviceInfo {
    DeviceInfo {
        model_id: 0x0102,
        category: 0x0101,
        software_id: 0x0A0B_0C0D,
        footprint,
        personality: 1,
        personalities: 1,
        address,
        sub_devices: 0,
        sensors: 0,
    }
}

fn subs_of(alloc: Global, subs: &[Sub]) -> Result<Vec<SubDevice>, AllocError> {
    let mut sub_devices = Vec::new(alloc);
    for (number, address, footprint) in subs {
        sub_devices.push(SubDevice {
            number: *number,
            address: *address,
            footprint: *footprint,
        })?;
    }
    Ok(sub_devices)
}

/// A fixture with these sub-devices, of which nothing else is known.
fn row_of(device: u32, root: Option<DeviceInfo>, sub_devices: Vec<SubDevice>) -> Row {
    Row {
        uid: uid_of(device),
        manufacturer: None,
        model: None,
        label: None,
        device: root,
        personality: None,
        software: None,
        hours: None,
        status: None,
        sub_devices,
    }
}

/// A fixture: its device ID, its root if that told something, and its sub-devices.
type Fixture = (u32, Option<(Option<u16>, u16)>, &'static [Sub]);

/// A root with three sub-devices, of which one has no start address and one no slots; a root with no start address; a root; and a
/// sub-device whose root told nothing.
const FIXTURES: &[Fixture] = &[
    (
        1,
        Some((Some(1), 5)),
        &[(1, Some(3), 2), (2, None, 4), (3, Some(9), 0)],
    ),
    (2, Some((None, 5)), &[]),
    (3, Some((Some(100), 1)), &[]),
    (4, None, &[(7, Some(20), 3)]),
];

fn fixtures(rt: &impl Abort, alloc: Global) -> Vec<Row> {
    let mut rows = Vec::new(alloc);
    for (device, root, subs) in FIXTURES {
        let root = root.map(|(address, footprint)| info_of(address, footprint));
        let sub_devices = subs_of(alloc, subs).expect(rt, "memory");
        rows.push(row_of(*device, root, sub_devices))
            .expect(rt, "memory");
    }
    rows
}

/// The assignment of a device.
fn assigned(device: u32, sub: u16, was: u16, address: u16, footprint: u16) -> Assignment {
    Assignment {
        uid: uid_of(device),
        sub,
        was,
        address,
        footprint,
    }
}

/// The first address, the gap, and the addresses that are proposed.
const PROPOSALS: &[(u16, u16, [u16; 4])] = &[
    (5, 0, [5, 10, 12, 13]),
    (1, 2, [1, 8, 12, 15]),
    (502, 0, [502, 507, 509, 510]),
];

#[test]
fn addresses_are_one_behind_the_other(rt: HostRuntime) {
    let rows = fixtures(&rt, rt.alloc());
    for (from, gap, addresses) in PROPOSALS {
        let list = propose(rt.alloc(), rows.as_slice(), *from, *gap).expect(&rt, "a proposal");
        assert!(rt; are_proposed(list.as_slice(), *addresses), "from {from}");
    }
}

/// Whether the fixtures are assigned these addresses.
fn are_proposed(list: &[Assignment], addresses: [u16; 4]) -> bool {
    let [first, second, third, fourth] = addresses;
    let wanted = [
        assigned(1, 0, 1, first, 5),
        assigned(1, 1, 3, second, 2),
        assigned(3, 0, 100, third, 1),
        assigned(4, 7, 20, fourth, 3),
    ];
    list == wanted.as_slice()
}

/// Fixtures with these footprints.
fn rows_of(alloc: Global, footprints: &[u16]) -> Result<Vec<Row>, AllocError> {
    let mut rows = Vec::new(alloc);
    for footprint in footprints {
        let root = Some(info_of(Some(1), *footprint));
        rows.push(row_of(1, root, Vec::new(alloc)))?;
    }
    Ok(rows)
}

/// How many devices are proposed for, and the address of the last of them, or why there is no proposal.
type Outcome = Result<(usize, u16), ProposalError>;

fn outcome(alloc: Global, rows: &[Row], from: u16, gap: u16) -> Outcome {
    match propose(alloc, rows, from, gap) {
        Ok(list) => Ok((list.len(), list.last().map_or(0, |last| last.address))),
        Err(error) => Err(error),
    }
}

/// The footprints of fixtures, the first address, the gap, and what comes of it.
const LIMITS: &[(&[u16], u16, u16, Outcome)] = &[
    (&[512], 1, 0, Ok((1, 1))),
    (&[511], 2, 0, Ok((1, 2))),
    (&[1], 512, 0xFFFF, Ok((1, 512))),
    (&[1, 1], 1, 510, Ok((2, 512))),
    (&[], 600, 0, Ok((0, 0))),
    (&[0, 0], 600, 0, Ok((0, 0))),
    (&[512], 2, 0, Err(ProposalError::NoRoom { last: 513 })),
    (&[1, 1], 1, 511, Err(ProposalError::NoRoom { last: 513 })),
    (&[1], 513, 0, Err(ProposalError::NoRoom { last: 513 })),
    // 65535 four times, less the address itself.
    (
        &[0xFFFF, 0xFFFF],
        0xFFFF,
        0xFFFF,
        Err(ProposalError::NoRoom { last: 262_139 }),
    ),
    (&[1], 0, 0, Err(ProposalError::SlotZero)),
];

#[test]
fn the_last_slot_is_512(rt: HostRuntime) {
    for (footprints, from, gap, expected) in LIMITS {
        let rows = rows_of(rt.alloc(), footprints).expect(&rt, "memory");
        let told = outcome(rt.alloc(), rows.as_slice(), *from, *gap);
        assert!(rt; told == *expected, "{footprints:?} from {from}");
    }
}

/// The words for why there is no proposal.
const REASONS: &str = "out of memory
there is no slot 0
the fixtures need slots up to 513, and the last one is 512";

#[test]
fn reasons_are_told(rt: HostRuntime) {
    let told = format!(in rt.alloc();
        "{}\n{}\n{}",
        ProposalError::OutOfMemory,
        ProposalError::SlotZero,
        ProposalError::NoRoom { last: 513 }
    );
    assert!(rt; told.expect(&rt, "memory").as_str() == REASONS);
}

/// The table of the fixtures from address 5 on.
const TABLE: &str = "UID           Sub   Slots   Was
7FF0:00000001 root  5-9     1-5
7FF0:00000001 1     10-11   3-4
7FF0:00000003 root  12      100
7FF0:00000004 7     13-15   20-22
";

#[test]
fn a_proposal_is_a_table(rt: HostRuntime) {
    let rows = fixtures(&rt, rt.alloc());
    let list = propose(rt.alloc(), rows.as_slice(), 5, 0).expect(&rt, "a proposal");
    let mut text = Vec::new(rt.alloc());
    put_table(rt.alloc(), list.as_slice(), &mut text).expect(&rt, "memory");
    assert!(rt; text.as_slice() == TABLE.as_bytes());
}

/// Puts a table of assignments at the end of a text.
fn put_table(alloc: Global, list: &[Assignment], text: &mut Vec<u8>) -> Result<(), AllocError> {
    put_heading(text)?;
    for assignment in list {
        put_assignment(alloc, assignment, text)?;
    }
    Ok(())
}
