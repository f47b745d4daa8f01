//! A parameter of a fixture is read.

ghost use Rattle.std.specs.Prelude.{◌≡◌, ◌<◌, ◌≤◌, IfOk, IfSome, OnOk, length, position};
ghost use Rattle.std.specs.Option.{option_copied};
ghost use Rattle.rdm_surveyor.specs.Asking.{IsAsked, IsTold, ends, of_root, question};
ghost use Rattle.rdm_surveyor.specs.Getting.{GoesOn, GoesOnTrying};
ghost use Rattle.rdm_surveyor.specs.Surveys.{TellsName};
ghost use Rattle.rdm_surveyor.specs.Tells.{characters_of, data_in, hours_in, hours_of, info_in, is_nul, name_in, name_of};
ghost use Rattle.rdm_surveyor.specs.Tells.{personality_of, text_in, text_of};

use crate::SurveyFault;
use rdm_collector::{Load, read_reply};
use rdm_console::{Action, Command, Mailbox, Port, Response, Uid, Want, Wire, ask_through};
use rdm_frame::Text;
use rdm_frame::standard::MOST_TEXT;
use rdm_survey::DeviceInfo;
use std::alloc::Global;
use std::marker::Model;

/// The parameter ID of what a device is (E1.20 section 10.5.1).
pub(crate) const DEVICE_INFO: u16 = 0x0060;

/// The parameter ID of what a model is called (section 10.5.3).
pub(crate) const DEVICE_MODEL_DESCRIPTION: u16 = 0x0080;

/// The parameter ID of who made a device (section 10.5.4).
pub(crate) const MANUFACTURER_LABEL: u16 = 0x0081;

/// The parameter ID of what its owner calls a device (section 10.5.5).
pub(crate) const DEVICE_LABEL: u16 = 0x0082;

/// The parameter ID of what the software of a device is called (section 10.5.9).
pub(crate) const SOFTWARE_VERSION_LABEL: u16 = 0x00C0;

/// The parameter ID of what a personality is called (section 10.6.2).
const DMX_PERSONALITY_DESCRIPTION: u16 = 0x00E1;

/// The parameter ID of how long a device has run (section 10.8.1).
const DEVICE_HOURS: u16 = 0x0400;

/// A console that asks a fixture.
#[derive(Drop)]
pub(crate) struct Asker {
    mailbox: Mailbox,
}

impl Model for Asker {
    ghost use Rattle.std.specs.Prelude.{◌≡◌, []};
    ghost use Rattle.rdm_surveyor.specs.Asking.{Ends};

    ghost Value = { Ends };

    ghost view = { λ a. record { console = a.mailbox.collector.uid; fixture = a.mailbox.device } };

    // It hears the fixture, and nothing is collected from it.
    ghost invariant = { λ a. (a.mailbox.collector.target ≡ a.mailbox.device) × (a.mailbox.collector.recorded ≡ []) };
}

impl Asker {
    /// One for the console and the fixture with these UIDs.
    pub(crate) fn new(alloc: Global, console: Uid, fixture: Uid) -> Asker
        ensures { result ≡ ends console fixture }
    {
        Asker {
            mailbox: Mailbox::new(alloc, console, fixture, Want::Warning),
        }
    }
}

/// What a fixture replies to a GET, which is sent again while it doesn't; nothing if it never does.
pub(crate) fn ask<P: Port>(
    asker: &mut Asker,
    port: &mut P,
    sub: u16,
    pid: u16,
    load: Load,
) -> Result<Option<Wire>, SurveyFault>
    ensures asked { IfOk result (λ reply. IsAsked P.hears asker.old (question sub pid load) port.old reply port.new) }
    ensures same { asker.new ≡ asker.old }
    ensures got { OnOk result (GoesOn P.hears port.old port.new) }
    ensures tried { GoesOnTrying P.hears P.fails port.old port.new }
{
    let command = Command {
        dst: asker.mailbox.uid(),
        action: Action::Get,
        sub,
        pid,
        load,
    };
    match ask_through(&mut asker.mailbox, port, &command) {
        Ok(reply) => Ok(reply),
        Err(fault) => Err(SurveyFault::from(fault)),
    }
}

/// The text that a fixture tells of this parameter.
pub(crate) fn ask_text<P: Port>(
    asker: &mut Asker,
    port: &mut P,
    pid: u16,
) -> Result<Option<Text>, SurveyFault>
    ensures told { IfOk result (λ text. IsTold P.hears asker.old (of_root pid) text_in port.old text port.new) }
    ensures same { asker.new ≡ asker.old }
    ensures got { OnOk result (GoesOn P.hears port.old port.new) }
    ensures tried { GoesOnTrying P.hears P.fails port.old port.new }
{
    match ask(asker, port, 0, pid, Load::new()) {
        Ok(reply) => Ok(text_in(&reply)),
        Err(fault) => Err(fault),
    }
}

/// How many hours a fixture says that it has run.
pub(crate) fn ask_hours<P: Port>(
    asker: &mut Asker,
    port: &mut P,
) -> Result<Option<u32>, SurveyFault>
    ensures told { IfOk result (λ hours. IsTold P.hears asker.old (of_root 0x0400) hours_in port.old hours port.new) }
    ensures same { asker.new ≡ asker.old }
    ensures got { OnOk result (GoesOn P.hears port.old port.new) }
    ensures tried { GoesOnTrying P.hears P.fails port.old port.new }
{
    match ask(asker, port, 0, DEVICE_HOURS, Load::new()) {
        Ok(reply) => Ok(hours_in(&reply)),
        Err(fault) => Err(fault),
    }
}

/// What a fixture calls its personality, if it has any.
pub(crate) fn ask_name<P: Port>(
    asker: &mut Asker,
    port: &mut P,
    device: &Option<DeviceInfo>,
) -> Result<Option<Text>, SurveyFault>
    ensures told { IfOk result (λ name. TellsName P.hears asker.old (personality_of device.now) port.old name port.new) }
    ensures same { asker.new ≡ asker.old }
    ensures got { OnOk result (GoesOn P.hears port.old port.new) }
    ensures tried { GoesOnTrying P.hears P.fails port.old port.new }
{
    match personality_of(device) {
        Some(number) => ask_name_of(asker, port, number),
        None => Ok(None),
    }
}

/// What a fixture calls this personality.
fn ask_name_of<P: Port>(
    asker: &mut Asker,
    port: &mut P,
    number: u8,
) -> Result<Option<Text>, SurveyFault>
    ensures told { IfOk result (λ name. TellsName P.hears asker.old (Some number) port.old name port.new) }
    ensures same { asker.new ≡ asker.old }
    ensures got { OnOk result (GoesOn P.hears port.old port.new) }
    ensures tried { GoesOnTrying P.hears P.fails port.old port.new }
{
    let load = Load::of(&[number]);
    match ask(asker, port, 0, DMX_PERSONALITY_DESCRIPTION, load) {
        Ok(reply) => Ok(name_in(number, &reply)),
        Err(fault) => Err(fault),
    }
}

/// The personality of a fixture, if it has any.
fn personality_of(device: &Option<DeviceInfo>) -> Option<u8>
    ensures { result ≡ personality_of device.now }
{
    match device {
        Some(info) if info.personalities > 0 && info.personality > 0 => Some(info.personality),
        _ => None,
    }
}

/// The data of a reply, if it is an ACK.
fn data_in(reply: &Option<Wire>) -> Option<&[u8]>
    ensures { option_copied result ≡ data_in reply.now }
{
    let Some(reply) = reply else {
        return None;
    };
    let said = read_reply(reply.as_slice())?;
    match said.response {
        Response::Ack => Some(said.body),
        _ => None,
    }
}

/// What a reply to DEVICE_INFO tells.
pub(crate) fn info_in(reply: &Option<Wire>) -> Option<DeviceInfo>
    ensures { result ≡ info_in reply.now }
{
    DeviceInfo::of(data_in(reply)?)
}

/// The text of a reply.
pub(crate) fn text_in(reply: &Option<Wire>) -> Option<Text>
    ensures { result ≡ text_in reply.now }
{
    text_of(data_in(reply)?)
}

/// A text, unless it is too long.
fn text_of(slots: &[u8]) -> Option<Text>
    ensures { result ≡ text_of slots.now }
{
    if slots.len() > MOST_TEXT {
        return None;
    }
    Some(Text::of(characters_of(slots)))
}

/// The characters of a text that a device may have padded with NULs.
fn characters_of(slots: &[u8]) -> &[u8]
    ensures characters { result.now ≡ characters_of slots.now }
    ensures within { length result.now ≤ length slots.now }
{
    match nul_in(slots) {
        Some(end) => &slots[..end],
        None => slots,
    }
}

/// Where the first NUL of a text is.
fn nul_in(slots: &[u8]) -> Option<usize>
    ensures end { result ≡ position is_nul slots.now }
    ensures within { IfSome result (λ end. end < length slots.now) }
{
    slots.iter().position(|slot| *slot == 0)
}

/// The hours of a reply.
fn hours_in(reply: &Option<Wire>) -> Option<u32>
    ensures { result ≡ hours_in reply.now }
{
    hours_of(data_in(reply)?)
}

/// Four slots of hours.
fn hours_of(slots: &[u8]) -> Option<u32>
    ensures { result ≡ hours_of slots.now }
{
    match slots {
        &[a, b, c, d] => Some(u32::from_be_bytes([a, b, c, d])),
        _ => None,
    }
}

/// The text of a reply that describes this personality.
fn name_in(number: u8, reply: &Option<Wire>) -> Option<Text>
    ensures { result ≡ name_in number reply.now }
{
    name_of(number, data_in(reply)?)
}

/// The text that describes this personality: it stands behind its number and its footprint.
fn name_of(number: u8, slots: &[u8]) -> Option<Text>
    ensures { result ≡ name_of number slots.now }
{
    match slots {
        [its_number, _, _, text @ ..] if *its_number == number => text_of(text),
        _ => None,
    }
}
