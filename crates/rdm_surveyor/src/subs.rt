//! The sub-devices of a fixture.

ghost use Rattle.std.specs.Prelude.{◌≡◌, ◌<◌, ◌+◌, ◌++◌, [], IfOk, OnOk, not, if◌then◌else◌};
ghost use Rattle.std.specs.Option.{option_to_list};
ghost use Rattle.rdm_surveyor.specs.Getting.{GoesOn, GoesOnTrying};
ghost use Rattle.rdm_surveyor.specs.Surveys.{TellSubs, TellsNumber, is_none_there, says_none, sub_in};

use crate::SurveyFault;
use crate::asking::{Asker, DEVICE_INFO, ask, info_in};
use rdm_collector::{Load, read_reply};
use rdm_console::{Port, Response, Wire};
use rdm_frame::standard::MOST_SUB_DEVICES;
use rdm_survey::SubDevice;

/// The reason by which a fixture says that it has no sub-device with a number (E1.20 table A-17).
const SUB_DEVICE_OUT_OF_RANGE: u16 = 0x0009;

/// Asks each sub-device of a fixture for its DEVICE_INFO, and puts what it tells at the end of a list. The numbers may have gaps (section
/// 9.3), so it is asked until there are as many as the root says.
pub(crate) fn ask_subs<P: Port>(
    asker: &mut Asker,
    port: &mut P,
    count: u16,
    told: &mut Vec<SubDevice>,
) -> Result<(), SurveyFault>
    requires { told.old.items ≡ [] }
    ensures told { OnOk result (TellSubs P.hears asker.old count port.old told.new.items port.new) }
    ensures same { asker.new ≡ asker.old }
    ensures got { OnOk result (GoesOn P.hears port.old port.new) }
    ensures tried { GoesOnTrying P.hears P.fails port.old port.new }
{
    let mut left = count;
    for before in 0..MOST_SUB_DEVICES {
        if left == 0 {
            return Ok(());
        }
        match ask_sub(asker, port, before + 1, told) {
            Ok(is_there) => left = left_behind(left, is_there),
            Err(fault) => return Err(fault),
        }
    }
    Ok(())
}

/// How many sub-devices are still to be found behind one that was asked.
fn left_behind(left: u16, is_there: bool) -> u16
    requires { 0 < left }
    ensures { result + (if is_there then 1 else 0) ≡ left }
{
    if is_there { left - 1 } else { left }
}

/// Asks a sub-device for its DEVICE_INFO, and puts what it tells at the end of a list. Gives whether there is one with this number, as
/// far as the fixture says.
fn ask_sub<P: Port>(
    asker: &mut Asker,
    port: &mut P,
    number: u16,
    told: &mut Vec<SubDevice>,
) -> Result<bool, SurveyFault>
    ensures told { IfOk result (λ is_there. TellsNumber P.hears asker.old number port.old told.old.items told.new.items is_there port.new) }
    ensures same { asker.new ≡ asker.old }
    ensures got { OnOk result (GoesOn P.hears port.old port.new) }
    ensures tried { GoesOnTrying P.hears P.fails port.old port.new }
{
    match ask(asker, port, number, DEVICE_INFO, Load::new()) {
        Ok(reply) => put_sub(number, &reply, told),
        Err(fault) => Err(fault),
    }
}

/// Puts what a sub-device replied at the end of a list. Gives whether there is one with this number.
fn put_sub(
    number: u16,
    reply: &Option<Wire>,
    told: &mut Vec<SubDevice>,
) -> Result<bool, SurveyFault>
    ensures put { OnOk result (told.new.items ≡ told.old.items ++ option_to_list (sub_in number reply.now)) }
    ensures there { IfOk result (λ is_there. is_there ≡ not (is_none_there reply.now)) }
{
    if let Some(sub) = sub_in(number, reply) {
        told.push(sub)?;
    }
    Ok(!is_none_there(reply))
}

/// The sub-device with this number, by its reply to DEVICE_INFO.
fn sub_in(number: u16, reply: &Option<Wire>) -> Option<SubDevice>
    ensures { result ≡ sub_in number reply.now }
{
    let info = info_in(reply)?;
    Some(SubDevice {
        number,
        address: info.address,
        footprint: info.footprint,
    })
}

/// Whether a reply says that there is no sub-device with the number that was asked.
fn is_none_there(reply: &Option<Wire>) -> bool
    ensures { result ≡ is_none_there reply.now }
{
    let Some(reply) = reply else {
        return false;
    };
    match read_reply(reply.as_slice()) {
        Some(said) => says_none(said.response),
        None => false,
    }
}

/// Whether a response says so.
fn says_none(response: Response) -> bool
    ensures { result ≡ says_none response }
{
    match response {
        Response::Nack { reason } => reason == SUB_DEVICE_OUT_OF_RANGE,
        _ => false,
    }
}
