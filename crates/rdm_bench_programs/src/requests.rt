//! Requests to devices on a line, and to a responder alone.

use crate::fault::Fault;
use rdm_frame::standard::{FIRST_PORT, GET_COMMAND, ROOT_DEVICE};
use rdm_frame::{Body, Frame, Uid, Wire, encode};
use rdm_line::{Collision, Line, OnWire};
use rdm_params::Profile;
use rdm_responder::{Responder, Settings};
use std::alloc::{AllocError, Global};

/// IDENTIFY_DEVICE (E1.20 section 10.11).
const IDENTIFY_DEVICE: u16 = 0x1000;

/// The manufacturer of the console, and of the devices whose UIDs aren't scattered.
const MAKER: u16 = 0x7FF0;

/// The UID of the console.
const CONSOLE: Uid = Uid {
    maker: MAKER,
    device: 0x0100_0000,
};

/// Which UIDs the devices of a line have.
#[derive(Clone, Copy)]
pub(crate) enum Uids {
    /// Device IDs that are counted up.
    CountedUp,
    /// Device IDs that are multiples of three.
    WithGaps,
    /// Manufacturers and device IDs without an order.
    Scattered,
}

/// How many bytes of replies a responder alone gives to so many requests.
pub(crate) fn alone(alloc: Global, rounds: u32) -> Result<u64, Fault> {
    let mut responder = responder(alloc, uid_of(0, Uids::CountedUp))?;
    let requests = requests(alloc, 1, Uids::CountedUp)?;
    let mut wire = Wire::new();
    let mut bytes: u64 = 0;
    for _ in 0..rounds {
        for request in requests.as_slice() {
            if responder.step_into(request.as_slice(), &mut wire).replied {
                bytes = bytes.wrapping_add(wire.as_slice().len() as u64);
            }
        }
    }
    Ok(bytes)
}

/// How many bytes of replies there are on a line of so many devices, where a request is sent to each in every round.
pub(crate) fn on_line(alloc: Global, devices: u16, uids: Uids, rounds: u32) -> Result<u64, Fault> {
    let mut line = line(alloc, devices, uids)?;
    let requests = requests(alloc, devices, uids)?;
    let mut wire = Wire::new();
    let mut bytes: u64 = 0;
    for _ in 0..rounds {
        for request in requests.as_slice() {
            if line.hear(request.as_slice(), &mut wire) == OnWire::Reply {
                bytes = bytes.wrapping_add(wire.as_slice().len() as u64);
            }
        }
    }
    Ok(bytes)
}

/// A line of so many devices.
fn line(alloc: Global, devices: u16, uids: Uids) -> Result<Line<Responder>, Fault> {
    let mut line = Line::new(alloc, Collision::First);
    for device in 0..devices {
        let responder = responder(alloc, uid_of(device, uids))?;
        if line.join(responder).is_err() {
            return Err(Fault::Refused);
        }
    }
    Ok(line)
}

/// The UID of the device with this number.
fn uid_of(device: u16, uids: Uids) -> Uid {
    let number = u32::from(device);
    match uids {
        Uids::CountedUp => Uid {
            maker: MAKER,
            device: number,
        },
        Uids::WithGaps => Uid {
            maker: MAKER,
            device: number.wrapping_mul(3),
        },
        Uids::Scattered => scattered(u64::from(number).wrapping_add(1)),
    }
}

/// A UID for each number, without an order that can be seen.
fn scattered(number: u64) -> Uid {
    let product = number.wrapping_mul(6_364_136_223_846_793_005);
    let [a, b, c, d, e, f, _, _] = (product ^ (product >> 29)).to_be_bytes();
    Uid {
        maker: u16::from_be_bytes([a, b]),
        device: u32::from_be_bytes([c, d, e, f]),
    }
}

/// The responder of the device with this UID.
fn responder(alloc: Global, uid: Uid) -> Result<Responder, Fault> {
    let settings = Settings {
        uid,
        queue_size: 1,
        entries: 1,
        first_job: 0,
    };
    let Ok(profile) = Box::new(alloc, Profile::demo(0)) else {
        return Err(Fault::OutOfMemory(AllocError));
    };
    let responder = Responder::with_settings(alloc, &settings, profile)?;
    Ok(responder)
}

/// A GET of IDENTIFY_DEVICE to each of so many devices.
fn requests(alloc: Global, devices: u16, uids: Uids) -> Result<Vec<Wire>, AllocError> {
    let mut requests = Vec::new(alloc);
    for device in 0..devices {
        requests.push(encode(&Frame {
            dst: uid_of(device, uids),
            src: CONSOLE,
            tn: 1,
            port: FIRST_PORT,
            count: 0,
            sub: ROOT_DEVICE,
            class: GET_COMMAND,
            pid: IDENTIFY_DEVICE,
            body: Body::new(),
        }))?;
    }
    Ok(requests)
}
