//! A parameter of a device is read.

use rdm_collector::{Action, Command, Load, Port};
use rdm_console::Mailbox;
use rdm_frame::Uid;
use rdm_host::fault::Fault;
use rdm_host::host::Host;
use rdm_line_talk::{Console, Outcome};
use rdm_survey::DeviceInfo;
use std::io::Write;

/// The parameter ID of what a device is (E1.20 section 10.5.1).
pub(crate) const DEVICE_INFO: u16 = 0x0060;

/// A GET of a parameter of the root or of a sub-device.
pub(crate) fn get(uid: Uid, sub: u16, pid: u16, load: Load) -> Command {
    Command {
        dst: uid,
        action: Action::Get,
        sub,
        pid,
        load,
    }
}

/// The data that a device replied, if it did what it was asked for.
pub(crate) fn data_of(outcome: Outcome) -> Option<Vec<u8>> {
    match outcome {
        Outcome::Done(data) => Some(data),
        Outcome::Rejected(_) | Outcome::Failed(_) | Outcome::Lacks(_) => None,
    }
}

/// What the root or a sub-device of the device of a mailbox tells of itself, if it does.
pub(crate) fn device_info_of<'a, H: Host, P: Port, F: Write>(
    console: &mut Console<'a, H, P, F>,
    mailbox: &mut Mailbox,
    sub: u16,
) -> Result<Option<DeviceInfo>, Fault<'a>> {
    let command = get(mailbox.uid(), sub, DEVICE_INFO, Load::new());
    match data_of(console.outcome(mailbox, &command)?) {
        Some(data) => Ok(DeviceInfo::of(data.as_slice())),
        None => Ok(None),
    }
}
