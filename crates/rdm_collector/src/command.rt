//! Commands: what a user of the bus asks a device.

ghost use Rattle.std.specs.Prelude.{◌≡◌, ◌≤◌, length};
ghost use Rattle.rdm_frame.specs.FrameText.{frame_text, IsFrame};
ghost use Rattle.rdm_collector.specs.Requests.{class_of, is_reserved, queued_message, request_of};

use rdm_frame::ranges::frame_fits;
use rdm_frame::standard::{
    DISCOVERY_COMMAND, FIRST_PORT, GET_COMMAND, QUEUED_MESSAGE, ROOT_DEVICE, SET_COMMAND,
    STATUS_MESSAGES,
};
use rdm_frame::{FrameView, Load, Uid, Wire, encode_into};

/// What a command does (E1.20 table A-1).
#[derive(Clone, Copy, Debug, PartialEq, Eq)]
pub enum Action {
    /// A discovery command.
    Disc,
    /// Asks for a value.
    Get,
    /// Gives a value.
    Set,
}

/// A request that a user asks to be sent.
#[derive(Debug, Drop, PartialEq, Eq)]
pub struct Command {
    /// The device or devices that it is for (E1.20 section 6.2.4).
    pub dst: Uid,
    /// What it does.
    pub action: Action,
    /// The sub-device, or 0 for the root (section 9).
    pub sub: u16,
    /// The parameter ID (section 6.2.10).
    pub pid: u16,
    /// The parameter data. They may be longer than the 231 slots that a frame can carry.
    pub load: Load,
}

impl Command {
    /// The same command again.
    pub fn copy(&self) -> Self
        ensures { result ≡ self.now }
    {
        Command {
            dst: self.dst,
            action: self.action,
            sub: self.sub,
            pid: self.pid,
            load: self.load.copy(),
        }
    }
}

/// The command class of a request (E1.20 table A-1).
pub(crate) fn class_of(action: Action) -> u8
    ensures { result ≡ class_of action }
{
    match action {
        Action::Disc => DISCOVERY_COMMAND,
        Action::Get => GET_COMMAND,
        Action::Set => SET_COMMAND,
    }
}

/// Whether only the collector itself may ask for a parameter, which is so of QUEUED_MESSAGE and STATUS_MESSAGES: two
/// controllers that fetch messages would each miss some (E1.20 sections 10.3.1 and 10.3.2).
pub fn is_reserved(pid: u16) -> bool
    ensures { result ≡ is_reserved pid }
{
    pid == QUEUED_MESSAGE || pid == STATUS_MESSAGES
}

/// QUEUED_MESSAGE with a status type, asked of the root of a device (E1.20 section 10.3.1).
pub(crate) fn queued_message(device: Uid, status_type: u8) -> Command
    ensures { result ≡ queued_message device status_type }
{
    let mut load = Load::new();
    load.append(&[status_type]);
    Command {
        dst: device,
        action: Action::Get,
        sub: ROOT_DEVICE,
        pid: QUEUED_MESSAGE,
        load,
    }
}

/// The bytes of the request of a command, from this source and with this transaction number (E1.20 section 6.2).
pub(crate) fn request_of(source: Uid, tn: u8, command: &Command) -> Wire
    requires { length command.now.load ≤ 231 }
    ensures text { result ≡ frame_text (request_of source tn command.now) }
    ensures is_frame { IsFrame (request_of source tn command.now) }
{
    let frame = FrameView {
        dst: command.dst,
        src: source,
        tn,
        port: FIRST_PORT,
        count: 0,
        sub: command.sub,
        class: class_of(command.action),
        pid: command.pid,
        body: command.load.as_slice(),
    };
    frame_fits(&frame);
    let mut wire = Wire::new();
    encode_into(&frame, &mut wire);
    wire
}
