//! What a device has of that which scripts need.

use crate::entry::FIRST_OF_MAKERS;
use crate::needs::Need;
use rdm_collector::{Action, Command, Load, Port};
use rdm_console::Mailbox;
use rdm_frame::Nack;
use rdm_frame::standard::{DISC_MUTE, DISC_UN_MUTE, DISC_UNIQUE_BRANCH, PARAMETER_DESCRIPTION};
use rdm_host::fault::Fault;
use rdm_host::host::Host;
use rdm_line_talk::{Console, Outcome, fault_of};
use rdm_params::{Kind, parameter_name};
use rdm_survey::DeviceInfo;
use std::alloc::{AllocError, Global};
use std::io::Write;

/// What a device has of that which a script may need.
#[derive(Drop)]
pub(crate) struct Equipment {
    /// The data of its SUPPORTED_PARAMETERS, if it has that (E1.20 section 10.4.1).
    listed: Option<Vec<u8>>,
    /// What its DEVICE_INFO says, if that is valid.
    info: Option<DeviceInfo>,
}

impl Equipment {
    /// Asks a device for it. One that doesn't answer that can't be tested.
    pub(crate) fn asked<'a, H: Host, P: Port, F: Write>(
        console: &mut Console<'a, H, P, F>,
        mailbox: &mut Mailbox,
    ) -> Result<Equipment, Fault<'a>> {
        let alloc = console.teller.rt().alloc();
        let info = given(console, mailbox, Kind::DeviceInfo.pid())?;
        let info = info.unwrap_or(Vec::new(alloc));
        Ok(Equipment {
            listed: given(console, mailbox, Kind::SupportedParameters.pid())?,
            info: DeviceInfo::of(info.as_slice()),
        })
    }

    /// What the device has that doesn't meet this need.
    pub(crate) fn lack(&self, alloc: Global, need: Need) -> Result<String, AllocError> {
        match need {
            Need::SubDevices if self.info.is_some() => String::from_str(alloc, "no sub-devices"),
            Need::NoSubDevices if self.info.is_some() => String::from_str(alloc, "sub-devices"),
            Need::SubDevices | Need::NoSubDevices => {
                String::from_str(alloc, "no valid DEVICE_INFO")
            }
            Need::Parameter(pid) => match parameter_name(pid) {
                Some(name) => format!(in alloc; "no {name}"),
                None => format!(in alloc; "no parameter {pid:04X}"),
            },
            Need::Settable(pid) => match parameter_name(pid) {
                Some(name) => format!(in alloc; "no {name} that can be set"),
                None => format!(in alloc; "no parameter {pid:04X} that can be set"),
            },
        }
    }

    /// The first of these needs that the device doesn't meet. It is asked for what can't be known otherwise.
    pub(crate) fn unmet<'a, H: Host, P: Port, F: Write>(
        &self,
        console: &mut Console<'a, H, P, F>,
        mailbox: &mut Mailbox,
        needs: &[Need],
    ) -> Result<Option<Need>, Fault<'a>> {
        for need in needs {
            if !self.meets(console, mailbox, *need)? {
                return Ok(Some(*need));
            }
        }
        Ok(None)
    }

    /// Whether the device meets a need.
    fn meets<'a, H: Host, P: Port, F: Write>(
        &self,
        console: &mut Console<'a, H, P, F>,
        mailbox: &mut Mailbox,
        need: Need,
    ) -> Result<bool, Fault<'a>> {
        match need {
            Need::Parameter(pid) => Ok(self.has(pid)),
            Need::Settable(pid) => Ok(self.has(pid) && is_settable(console, mailbox, pid)?),
            Need::SubDevices => Ok(self.subs().unwrap_or(0) > 0),
            Need::NoSubDevices => Ok(self.subs() == Some(0)),
        }
    }

    /// Whether it has a parameter. Those that every device has aren't listed, nor is DMX_START_ADDRESS, which a device has that has a start
    /// address, nor PARAMETER_DESCRIPTION, which describes parameters of the maker's own (E1.20 section 10.4.1).
    fn has(&self, pid: u16) -> bool {
        is_everywhere(pid)
            || (pid == Kind::SupportedParameters.pid() && self.listed.is_some())
            || (pid == Kind::DmxStartAddress.pid() && self.has_address())
            || self.lists(pid)
            || (pid == PARAMETER_DESCRIPTION && self.lists_own())
    }

    /// Whether it lists the parameter with this PID.
    fn lists(&self, pid: u16) -> bool {
        match &self.listed {
            Some(listed) => listed
                .as_slice()
                .chunks_exact(2)
                .any(|word| pid_in(word) == Some(pid)),
            None => false,
        }
    }

    /// Whether it lists a parameter of the maker's own.
    fn lists_own(&self) -> bool {
        match &self.listed {
            Some(listed) => listed
                .as_slice()
                .chunks_exact(2)
                .any(|word| pid_in(word).unwrap_or(0) >= FIRST_OF_MAKERS),
            None => false,
        }
    }

    fn has_address(&self) -> bool {
        match &self.info {
            Some(info) => info.address.is_some(),
            None => false,
        }
    }

    /// How many sub-devices it has, if it says that.
    fn subs(&self) -> Option<u16> {
        match &self.info {
            Some(info) => Some(info.sub_devices),
            None => None,
        }
    }
}

/// Whether every device has this parameter (E1.20 table A-3).
fn is_everywhere(pid: u16) -> bool {
    pid == DISC_UNIQUE_BRANCH
        || pid == DISC_MUTE
        || pid == DISC_UN_MUTE
        || pid == Kind::DeviceInfo.pid()
        || pid == Kind::SoftwareVersionLabel.pid()
        || pid == Kind::IdentifyDevice.pid()
}

/// Whether the device of a mailbox takes back the value that a parameter of its root has. If the value can only be read, it rejects that
/// (E1.20 table A-17). A parameter that it has, and that can't be read, can be set.
fn is_settable<'a, H: Host, P: Port, F: Write>(
    console: &mut Console<'a, H, P, F>,
    mailbox: &mut Mailbox,
    pid: u16,
) -> Result<bool, Fault<'a>> {
    let value = match get(console, mailbox, pid)? {
        Outcome::Done(value) => value,
        Outcome::Rejected(reason) => return Ok(reason == Nack::UnsupportedCommandClass.code()),
        Outcome::Failed(_) | Outcome::Lacks(_) => return Ok(false),
    };
    let Some(load) = Load::from_slice(value.as_slice()) else {
        return Ok(false);
    };
    match send(console, mailbox, Action::Set, pid, load)? {
        Outcome::Rejected(reason) => Ok(
            reason != Nack::UnsupportedCommandClass.code() && reason != Nack::WriteProtect.code(),
        ),
        _ => Ok(true),
    }
}

/// The data that the device of a mailbox gives of a parameter of the root, if it has that. One that doesn't answer is a fault.
fn given<'a, H: Host, P: Port, F: Write>(
    console: &mut Console<'a, H, P, F>,
    mailbox: &mut Mailbox,
    pid: u16,
) -> Result<Option<Vec<u8>>, Fault<'a>> {
    match get(console, mailbox, pid)? {
        Outcome::Done(data) => Ok(Some(data)),
        Outcome::Rejected(_) | Outcome::Failed(_) => Ok(None),
        lacking => Err(Fault::Line(fault_of(mailbox.uid(), lacking))),
    }
}

/// Asks the device of a mailbox for a parameter of the root.
fn get<'a, H: Host, P: Port, F: Write>(
    console: &mut Console<'a, H, P, F>,
    mailbox: &mut Mailbox,
    pid: u16,
) -> Result<Outcome, Fault<'a>> {
    send(console, mailbox, Action::Get, pid, Load::new())
}

/// Sends a command of a parameter of the root to the device of a mailbox, and gives what came of it.
fn send<'a, H: Host, P: Port, F: Write>(
    console: &mut Console<'a, H, P, F>,
    mailbox: &mut Mailbox,
    action: Action,
    pid: u16,
    load: Load,
) -> Result<Outcome, Fault<'a>> {
    let command = Command {
        dst: mailbox.uid(),
        action,
        sub: 0,
        pid,
        load,
    };
    console.outcome(mailbox, &command)
}

/// The PID that two slots say.
fn pid_in(word: &[u8]) -> Option<u16> {
    match word {
        [high, low] => Some(u16::from_be_bytes([*high, *low])),
        _ => None,
    }
}
