//! Requests to one device, to all, and to nobody.

use crate::rig::{CONSOLE, device, line, request};
use rdm_frame::standard::{DISC_MUTE, DISC_UN_MUTE, DISCOVERY_COMMAND, GET_COMMAND};
use rdm_frame::{Uid, Wire, decode};
use rdm_line::{Collision, Device, JoinError, Line, OnWire, Station};
use std::test::Fail;

/// IDENTIFY_DEVICE (E1.20 section 10.11).
const IDENTIFY_DEVICE: u16 = 0x1000;

const fn uid(device: u32) -> Uid {
    Uid {
        maker: 0x7FF0,
        device,
    }
}

/// The device alone answers what is for it.
#[test]
fn each_answers_for_itself(rt: HostRuntime) -> Result<(), Fail> {
    let uids = [uid(5), uid(3), uid(8), uid(1)];
    let mut line = line(rt.alloc(), Collision::First, &uids)?;
    for own in uids {
        let mut wire = Wire::new();
        let bytes = request(own, GET_COMMAND, IDENTIFY_DEVICE);
        assert!(rt; line.hear(bytes.as_slice(), &mut wire) == OnWire::Reply);
        let reply = decode(wire.as_slice())?;
        assert!(rt; reply.src == own);
        assert!(rt; reply.dst == CONSOLE);
        assert!(rt; reply.body.as_slice() == [0].as_slice());
        assert!(rt; line.get(own).is_some());
    }
    Ok(())
}

/// A broadcast that isn't a branch is carried out by all, and answered by none. What is for nobody is heard by nobody.
#[test]
fn broadcasts_are_unanswered(rt: HostRuntime) -> Result<(), Fail> {
    let uids = [uid(1), uid(2)];
    let mut line = line(rt.alloc(), Collision::AllBits, &uids)?;
    let mut wire = Wire::new();
    for dst in [Uid::ALL, Uid::all_of(0x7FF0), Uid::all_of(0x7FF1), uid(3)] {
        for (class, pid) in [
            (DISCOVERY_COMMAND, DISC_MUTE),
            (DISCOVERY_COMMAND, DISC_UN_MUTE),
            (GET_COMMAND, IDENTIFY_DEVICE),
        ] {
            let bytes = request(dst, class, pid);
            assert!(rt; line.hear(bytes.as_slice(), &mut wire) == OnWire::Nothing);
        }
    }
    assert!(rt; line.hear(&[0xCC, 0x01], &mut wire) == OnWire::Nothing);
    assert!(rt; wire.as_slice().is_empty());
    Ok(())
}

/// A device that is refused comes back.
#[test]
fn some_may_not_join(rt: HostRuntime) -> Result<(), Fail> {
    let mut line = line(rt.alloc(), Collision::First, &[uid(2), uid(1)])?;
    match line.join(device(rt.alloc(), uid(2))?) {
        Ok(()) => assert!(rt; false),
        Err(refused) => {
            assert!(rt; refused.error == JoinError::Taken);
            assert!(rt; refused.device.uid() == uid(2));
        }
    }
    assert!(rt; line.len() == 2);
    assert!(rt; !line.is_empty());
    assert!(rt; line.get(uid(1)).is_some());
    assert!(rt; line.get(uid(3)).is_none());
    assert!(rt; line.find(uid(2)) == Some(1));
    Ok(())
}

/// A station keeps what its last request came to.
#[test]
fn a_station_tells(rt: HostRuntime) -> Result<(), Fail> {
    let mut line = Line::new(rt.alloc(), Collision::First);
    let _ = line.join(Station::new(device(rt.alloc(), uid(1))?));
    let mut wire = Wire::new();
    assert!(rt; line.get(uid(1)).is_some_and(|s| !s.stepped().replied));
    let bytes = request(uid(1), GET_COMMAND, IDENTIFY_DEVICE);
    assert!(rt; line.hear(bytes.as_slice(), &mut wire) == OnWire::Reply);
    assert!(rt; line.get(uid(1)).is_some_and(|s| s.stepped().replied));
    let bytes = request(uid(2), GET_COMMAND, IDENTIFY_DEVICE);
    assert!(rt; line.hear(bytes.as_slice(), &mut wire) == OnWire::Nothing);
    match line.get_mut(uid(1)) {
        Some(station) => {
            assert!(rt; station.uid() == uid(1));
            assert!(rt; station.responder_mut().room());
            assert!(rt; station.responder().waiting() == 0);
        }
        None => assert!(rt; false),
    }
    Ok(())
}

/// The firmware of each device reaches its responder.
#[test]
fn each_device_is_lent(rt: HostRuntime) -> Result<(), Fail> {
    let uids = [uid(4), uid(2)];
    let mut line = line(rt.alloc(), Collision::First, &uids)?;
    for own in uids {
        match line.get_mut(own) {
            Some(device) => {
                assert!(rt; device.uid() == own);
                assert!(rt; device.room());
                assert!(rt; device.waiting() == 0);
            }
            None => assert!(rt; false),
        }
    }
    assert!(rt; line.get_mut(uid(3)).is_none());
    Ok(())
}
