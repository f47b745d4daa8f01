//! A search over lines of many devices, with each rule of collisions.

use crate::rig::{CONSOLE, line};
use rdm_frame::Uid;
use rdm_line::{Collision, Device, LinePort};
use rdm_search::discover;
use std::alloc::Global;
use std::test::Fail;

/// More transactions than any search here needs.
const LIMIT: u32 = 40_000;

const RULES: [Collision; 3] = [
    Collision::AllBits,
    Collision::First,
    Collision::Rubbish(0x5EED),
];

/// Whether a search finds these UIDs and no others, whatever a collision sounds like.
fn all_are_found(alloc: Global, uids: &[Uid]) -> Result<bool, Fail> {
    for rule in RULES {
        if !all_are_found_by(alloc, rule, uids)? {
            return Ok(false);
        }
    }
    Ok(true)
}

/// Whether a search finds these UIDs and no others, with this rule.
fn all_are_found_by(alloc: Global, rule: Collision, uids: &[Uid]) -> Result<bool, Fail> {
    let mut port = LinePort::new(line(alloc, rule, uids)?);
    let found = discover(alloc, &mut port, CONSOLE, LIMIT)?;
    let sent = port.sent() as usize;
    let line = port.into_line();
    if sent > uids.len().saturating_mul(74).saturating_add(2) {
        return Ok(false);
    }
    if found.len() != uids.len() || line.len() != uids.len() {
        return Ok(false);
    }
    for device in line.devices() {
        let uid = device.uid();
        if !found.iter().any(|f| f.uid == uid) {
            return Ok(false);
        }
    }
    Ok(true)
}

/// UIDs one behind the other.
fn adjacent(alloc: Global, count: u32) -> Result<Vec<Uid>, Fail> {
    let mut uids = Vec::new(alloc);
    for device in 0..count {
        uids.push(Uid {
            maker: 0x7FF0,
            device,
        })?;
    }
    Ok(uids)
}

/// Pairs of UIDs that differ in the first bit alone.
fn first_bit(alloc: Global, pairs: u16) -> Result<Vec<Uid>, Fail> {
    let mut uids = Vec::new(alloc);
    for number in 0..pairs {
        for maker in [number, number | 0x8000] {
            uids.push(Uid { maker, device: 7 })?;
        }
    }
    Ok(uids)
}

/// UIDs without an order.
fn scattered(alloc: Global, count: u32) -> Result<Vec<Uid>, Fail> {
    let mut uids = Vec::new(alloc);
    let mut state: u64 = 1;
    for _ in 0..count {
        state = state
            .wrapping_mul(6_364_136_223_846_793_005)
            .wrapping_add(1_442_695_040_888_963_407);
        let [a, b, c, d, e, f, _, _] = state.to_be_bytes();
        uids.push(Uid {
            maker: u16::from_be_bytes([a, b]),
            device: u32::from_be_bytes([c, d, e, f]),
        })?;
    }
    Ok(uids)
}

#[test]
fn few_are_found(rt: HostRuntime) -> Result<(), Fail> {
    let alloc = rt.alloc();
    for count in [0, 1, 2, 3] {
        assert!(rt; all_are_found(alloc, &adjacent(alloc, count)?)?);
        assert!(rt; all_are_found(alloc, &scattered(alloc, count)?)?);
    }
    assert!(rt; all_are_found(alloc, &first_bit(alloc, 1)?)?);
    Ok(())
}

#[test]
fn a_hundred_are_found(rt: HostRuntime) -> Result<(), Fail> {
    let alloc = rt.alloc();
    assert!(rt; all_are_found(alloc, &adjacent(alloc, 100)?)?);
    assert!(rt; all_are_found(alloc, &first_bit(alloc, 50)?)?);
    assert!(rt; all_are_found(alloc, &scattered(alloc, 100)?)?);
    Ok(())
}

#[test]
fn five_hundred_are_found_in_all_bits(rt: HostRuntime) -> Result<(), Fail> {
    let alloc = rt.alloc();
    assert!(rt; all_are_found_by(alloc, Collision::AllBits, &adjacent(alloc, 512)?)?);
    Ok(())
}

#[test]
fn five_hundred_are_found_behind_the_first(rt: HostRuntime) -> Result<(), Fail> {
    let alloc = rt.alloc();
    assert!(rt; all_are_found_by(alloc, Collision::First, &scattered(alloc, 512)?)?);
    Ok(())
}

#[test]
fn five_hundred_are_found_in_rubbish(rt: HostRuntime) -> Result<(), Fail> {
    let alloc = rt.alloc();
    assert!(rt; all_are_found_by(alloc, Collision::Rubbish(7), &adjacent(alloc, 512)?)?);
    Ok(())
}
