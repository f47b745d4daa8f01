//! What a collector takes and gives, as numbers.

ghost use Rattle.std.specs.Prelude.{◌≡◌, ◌≤◌, take};
ghost use Rattle.rdm_c.specs.Messages.{Tells, action_in, command_in, heard_numbers, heard_with, want_in};
ghost use Rattle.rdm_c.specs.Queues.{as_collected};

use crate::front::write_front;
use crate::reply::numbers_of;
use rdm_collector::{Action, Collected, Command, DeviceHeard, Response, Want};
use rdm_frame::standard::{
    ADVISORY, DISCOVERY_COMMAND, ERROR, GET_COMMAND, MOST_DATA, SET_COMMAND, WARNING,
};
use rdm_frame::{Load, Uid};
use rdm_params::Message;

/// The most bytes of data that are read of a command.
const MOST_READ: usize = 255;

/// A command to be sent. The header calls it `felosumay_command`.
#[repr(C)]
#[derive(Clone, Copy)]
pub struct CommandNumbers {
    /// The device ID of the destination (E1.20 section 6.2.4).
    pub device: u32,
    /// The manufacturer ID of the destination.
    pub maker: u16,
    /// The sub-device, or 0 for the root (section 9).
    pub sub: u16,
    /// The PID.
    pub pid: u16,
    /// The command class: discovery, GET or SET (table A-1).
    pub command_class: u8,
}

/// What a collector took bytes for. The header calls it `felosumay_heard`.
#[repr(C)]
#[derive(Clone, Copy)]
pub struct HeardNumbers {
    /// The reason if the device rejects the poll (E1.20 table A-17), else 0.
    pub reason: u16,
    /// In how many tenths of a second the device can answer the poll (section 6.3.3), if it can't yet, else 0.
    pub tenths: u16,
    /// What the bytes were taken for, as the header numbers it.
    pub kind: u8,
}

/// A message that was recorded, or a part of one. The header calls it `felosumay_message`.
#[repr(C)]
#[derive(Clone, Copy)]
pub struct MessageNumbers {
    /// How many bytes of parameter data it has.
    pub count: usize,
    /// The PID.
    pub pid: u16,
    /// The sub-device, or 0 for the root.
    pub sub: u16,
    /// The reason of a NACK_REASON (table A-17), else 0.
    pub reason: u16,
    /// The estimate of an ACK_TIMER in tenths of a second (section 6.3.3), else 0.
    pub tenths: u16,
    /// The response type (table A-2).
    pub kind: u8,
    /// The command class of the response (table A-1).
    pub command_class: u8,
    /// 1 if it was asked for again (STATUS_GET_LAST_MESSAGE, table A-4), so that it may be what was recorded before it once
    /// more; else 0.
    pub may_repeat: u8,
    /// 1 if a poll has no answer, of those since something was recorded before it, so that something may be missing here; else 0.
    pub after_loss: u8,
    /// The parameter data at the front.
    pub bytes: [u8; MOST_DATA],
}

impl CommandNumbers {
    /// The command that the numbers and these data stand for, or `None` if the command class isn't one of the three.
    pub(crate) fn command(&self, load: &[u8]) -> Option<Command>
        ensures { result ≡ command_in self.now load.now }
    {
        let action = action_in(self.command_class)?;
        Some(Command {
            dst: Uid {
                maker: self.maker,
                device: self.device,
            },
            action,
            sub: self.sub,
            pid: self.pid,
            load: front(load, MOST_READ),
        })
    }
}

impl HeardNumbers {
    /// The numbers of what bytes were taken for.
    pub(crate) fn of(heard: DeviceHeard) -> HeardNumbers
        ensures { result ≡ heard_numbers heard }
    {
        match heard {
            DeviceHeard::Ignored => HeardNumbers::with(0, 0, 0),
            DeviceHeard::Message => HeardNumbers::with(1, 0, 0),
            DeviceHeard::Reply => HeardNumbers::with(2, 0, 0),
            DeviceHeard::Part => HeardNumbers::with(3, 0, 0),
            DeviceHeard::Unsupported => HeardNumbers::with(4, 0, 0),
            DeviceHeard::Refused { reason } => HeardNumbers::with(5, reason, 0),
            DeviceHeard::NotYet { tenths } => HeardNumbers::with(6, 0, tenths),
        }
    }

    /// These numbers.
    fn with(kind: u8, reason: u16, tenths: u16) -> HeardNumbers
        ensures { result ≡ heard_with kind reason tenths }
    {
        HeardNumbers {
            reason,
            tenths,
            kind,
        }
    }
}

impl MessageNumbers {
    /// Tells of what was collected.
    pub(crate) fn tell(&mut self, collected: &Collected)
        ensures { Tells self.new collected.now }
    {
        let loss = collected.after_loss;
        self.tell_message(
            &collected.message,
            collected.response,
            collected.again,
            loss,
        );
    }

    /// Tells of a message that waits at a responder, as a controller will collect it.
    pub(crate) fn tell_waiting(&mut self, message: &Message)
        ensures { Tells self.new (as_collected message.now) }
    {
        self.tell_message(message, Response::Ack, false, false);
    }

    /// Tells of a message, of its response type, and of how it was asked for.
    fn tell_message(&mut self, message: &Message, response: Response, again: bool, after_loss: bool)
        ensures { Tells self.new (record { response = response; message = message.now; again = again; after_loss = after_loss }) }
    {
        self.count = write_front(message.body.as_slice(), &mut self.bytes);
        self.pid = message.pid;
        self.sub = message.sub;
        self.command_class = message.class;
        self.may_repeat = if again { 1 } else { 0 };
        self.after_loss = if after_loss { 1 } else { 0 };
        let (kind, reason, tenths) = numbers_of(response);
        self.kind = kind;
        self.reason = reason;
        self.tenths = tenths;
    }
}

/// The data, or the first `most` bytes of them if there are more.
fn front(load: &[u8], most: usize) -> Load
    requires { most ≤ 255 }
    ensures { result ≡ take most load.now }
{
    Load::of(&load[..load.len().min(most)])
}

/// The least severity that is wanted, by its status type (E1.20 table A-4).
pub(crate) fn want_in(status_type: u8) -> Option<Want>
    ensures { result ≡ want_in status_type }
{
    match status_type {
        ADVISORY => Some(Want::Advisory),
        WARNING => Some(Want::Warning),
        ERROR => Some(Want::Error),
        _ => None,
    }
}

/// What a command class does (table A-1).
fn action_in(command_class: u8) -> Option<Action>
    ensures { result ≡ action_in command_class }
{
    match command_class {
        DISCOVERY_COMMAND => Some(Action::Disc),
        GET_COMMAND => Some(Action::Get),
        SET_COMMAND => Some(Action::Set),
        _ => None,
    }
}
