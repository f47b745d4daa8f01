//! A fixture that answers by a list, and one that has status messages without end.

use rdm_collector::{Port, PortError};
use rdm_frame::digits::bytes_in;
use rdm_frame::{Body, Frame, Uid, Wire, decode_view, encode};
use std::alloc::AllocError;
use std::fmt::Write;

pub(super) const CONSOLE: Uid = Uid {
    maker: 0x7FF0,
    device: 2,
};

pub(super) const FIXTURE: Uid = Uid {
    maker: 0x7FF0,
    device: 1,
};

pub(super) const STATUS_MESSAGES: u16 = 0x0030;

/// A fixture: what it answers to each parameter of the root and of its sub-devices, as the number of the device, the PID, the response
/// type and the data; it rejects all others. And what it answers to STATUS_MESSAGES, one request after another: a response type, a class, a
/// PID and data, or `-` for nothing. At the end of these it is silent.
#[derive(Drop)]
pub(super) struct Fixture {
    pub(super) values: &'static [(u16, u16, u8, &'static str)],
    pub(super) statuses: &'static str,
    /// Whether it answers all others by a NACK, or by nothing.
    pub(super) rejects: bool,
    /// What it was asked: the PID, the sub-device if it isn't the root, and the data.
    pub(super) asked: String,
}

impl Port for Fixture {
    ghost hears = { λ _ _ _ _. Unit {0} };

    ghost fails = { λ _ _ _ _. Unit {0} };

    fn exchange(&mut self, request: &Wire) -> Result<Option<Wire>, PortError> {
        let Ok(frame) = decode_view(request.as_slice()) else {
            return Err(PortError::Write);
        };
        if frame.class != 0x20 || frame.dst != FIXTURE || frame.src != CONSOLE {
            return Err(PortError::Write);
        }
        if tell(&mut self.asked, frame.pid, frame.sub, frame.body).is_err() {
            return Err(PortError::Write);
        }
        let (pid, sub, tn) = (frame.pid, frame.sub, frame.tn);
        if pid == STATUS_MESSAGES {
            let (reply, rest) = self.statuses.split_once(' ').unwrap_or((self.statuses, ""));
            self.statuses = rest;
            return Ok(status(tn, reply));
        }
        for (its_sub, its_pid, response_type, data) in self.values {
            if *its_sub == sub && *its_pid == pid {
                return Ok(reply(tn, sub, *response_type, 0x21, pid, data));
            }
        }
        if !self.rejects {
            return Ok(None);
        }
        let reason = if sub == 0 { "0000" } else { "0009" };
        Ok(reply(tn, sub, 2, 0x21, pid, reason))
    }
}

/// Tells what is asked.
fn tell(asked: &mut String, pid: u16, sub: u16, data: &[u8]) -> Result<(), AllocError> {
    write!(asked, "{pid:04X}")?;
    if sub > 0 {
        write!(asked, "/{sub}")?;
    }
    for byte in data {
        write!(asked, "={byte}")?;
    }
    write!(asked, " ")
}

/// An answer to STATUS_MESSAGES.
fn status(tn: u8, text: &str) -> Option<Wire> {
    let bytes = text.as_bytes();
    if bytes.len() > 510 {
        return None;
    }
    let load = bytes_in(bytes)?;
    let [response_type, class, high, low, data @ ..] = load.as_slice() else {
        return None;
    };
    let pid = u16::from_be_bytes([*high, *low]);
    framed(tn, 0, *response_type, *class, pid, data)
}

/// A reply with these data, in hexadecimal digits.
fn reply(tn: u8, sub: u16, response_type: u8, class: u8, pid: u16, digits: &str) -> Option<Wire> {
    let digits = digits.as_bytes();
    if digits.len() > 510 {
        return None;
    }
    let load = bytes_in(digits)?;
    framed(tn, sub, response_type, class, pid, load.as_slice())
}

/// A reply.
pub(super) fn framed(
    tn: u8,
    sub: u16,
    response_type: u8,
    class: u8,
    pid: u16,
    data: &[u8],
) -> Option<Wire> {
    Some(encode(&Frame {
        dst: CONSOLE,
        src: FIXTURE,
        tn,
        port: response_type,
        count: 0,
        sub,
        class,
        pid,
        body: Body::from_slice(data)?,
    }))
}

/// A fixture that tells another error each time.
#[derive(Drop)]
pub(super) struct Endless {
    pub(super) told: u8,
}

impl Port for Endless {
    ghost hears = { λ _ _ _ _. Unit {0} };

    ghost fails = { λ _ _ _ _. Unit {0} };

    fn exchange(&mut self, request: &Wire) -> Result<Option<Wire>, PortError> {
        let Ok(frame) = decode_view(request.as_slice()) else {
            return Err(PortError::Write);
        };
        if frame.pid != STATUS_MESSAGES {
            return Ok(framed(frame.tn, frame.sub, 2, 0x21, frame.pid, &[0, 0]));
        }
        self.told = self.told.wrapping_add(1);
        let entry = [0, 0, 4, 0x80, self.told, 0, 0, 0, 0];
        Ok(framed(frame.tn, 0, 0, 0x21, frame.pid, &entry))
    }
}
