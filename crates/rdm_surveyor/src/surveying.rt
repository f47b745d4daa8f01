//! A fixture is asked for all that a survey tells of it.

ghost use Rattle.std.specs.Prelude.{◌≡◌, IfOk, OnOk};
ghost use Rattle.rdm_surveyor.specs.Asking.{ends};
ghost use Rattle.rdm_surveyor.specs.Getting.{GoesOn, GoesOnTrying, HasGot, HasTried};
ghost use Rattle.rdm_surveyor.specs.Surveys.{IsUntold, TellsFirst, TellsRow, TellsTexts, subs_of};

use crate::asking::{
    Asker, DEVICE_INFO, DEVICE_LABEL, DEVICE_MODEL_DESCRIPTION, MANUFACTURER_LABEL,
    SOFTWARE_VERSION_LABEL, ask, ask_hours, ask_name, ask_text, info_in, text_in,
};
use crate::reports::fetch;
use crate::subs::ask_subs;
use crate::{Report, SurveyFault};
use rdm_collector::Load;
use rdm_console::{Port, Uid};
use rdm_frame::Text;
use rdm_survey::{DeviceInfo, Row};
use std::alloc::Global;

/// What a fixture told.
#[derive(Debug, Drop)]
pub struct Surveyed {
    /// Its row.
    pub row: Row,
    /// Whether it may have more status messages, since it gave more than are fetched at once.
    pub has_more: bool,
}

/// What the first two questions came to.
#[derive(Drop)]
pub(crate) struct First {
    device: Option<DeviceInfo>,
    manufacturer: Option<Text>,
    /// Whether one of them was answered.
    answers: bool,
}

/// The texts that a fixture told, and its hours.
#[derive(Drop)]
pub(crate) struct Texts {
    model: Option<Text>,
    label: Option<Text>,
    personality: Option<Text>,
    software: Option<Text>,
    hours: Option<u32>,
}

/// Asks the fixture with this UID for all that a survey tells of it. What it rejects, doesn't know, needs time for or doesn't answer isn't
/// told. Each status message that it gives is put at the end of `reports`, and is there also if the survey stops behind it.
pub fn survey<P: Port>(
    alloc: Global,
    console: Uid,
    uid: Uid,
    port: &mut P,
    reports: &mut Vec<Report>,
) -> Result<Surveyed, SurveyFault>
    // The row is what the fixture told: each field is what the reply to the GET of its parameter tells, which was heard in this run.
    ensures told { IfOk result (λ s. TellsRow P.hears (ends console uid) port.old reports.old.items s reports.new.items port.new) }
    // It sends GETs and nothing else.
    ensures got { OnOk result (HasGot P.hears port.old port.new) }
    // So it does where it stops, too, perhaps since the port failed at the last of them.
    ensures tried { HasTried P.hears P.fails port.old port.new }
{
    ask_all(alloc, console, uid, port, reports)
}

/// The same, behind whatever was sent before.
fn ask_all<P: Port>(
    alloc: Global,
    console: Uid,
    uid: Uid,
    port: &mut P,
    reports: &mut Vec<Report>,
) -> Result<Surveyed, SurveyFault>
    ensures told { IfOk result (λ s. TellsRow P.hears (ends console uid) port.old reports.old.items s reports.new.items port.new) }
    ensures got { OnOk result (GoesOn P.hears port.old port.new) }
    ensures tried { GoesOnTrying P.hears P.fails port.old port.new }
{
    let mut asker = Asker::new(alloc, console, uid);
    let first = ask_first(&mut asker, port)?;
    if !first.answers {
        return Ok(Surveyed {
            row: untold(alloc, uid, first),
            has_more: false,
        });
    }
    let texts = ask_texts(&mut asker, port, &first.device)?;
    let statuses = fetch(alloc, console, uid, port, reports)?;
    let mut sub_devices = Vec::new(alloc);
    let count = subs_of(&first.device);
    ask_subs(&mut asker, port, count, &mut sub_devices)?;
    Ok(Surveyed {
        row: Row {
            uid,
            manufacturer: first.manufacturer,
            model: texts.model,
            label: texts.label,
            device: first.device,
            personality: texts.personality,
            software: texts.software,
            hours: texts.hours,
            status: statuses.counts,
            sub_devices,
        },
        has_more: statuses.has_more,
    })
}

/// The row of a fixture that was asked the first two questions alone.
fn untold(alloc: Global, uid: Uid, first: First) -> Row
    ensures uid { result.uid ≡ uid }
    ensures device { result.device ≡ first.device }
    ensures manufacturer { result.manufacturer ≡ first.manufacturer }
    ensures untold { IsUntold result }
{
    Row {
        uid,
        manufacturer: first.manufacturer,
        model: None,
        label: None,
        device: first.device,
        personality: None,
        software: None,
        hours: None,
        status: None,
        sub_devices: Vec::new(alloc),
    }
}

/// Asks what each fixture has to answer (E1.20 table A-3), and says whether it answers at all. One that doesn't isn't asked for more,
/// since each question that isn't answered takes long.
fn ask_first<P: Port>(asker: &mut Asker, port: &mut P) -> Result<First, SurveyFault>
    ensures told { IfOk result (λ f. TellsFirst P.hears asker.old port.old f.device f.manufacturer f.answers port.new) }
    ensures same { asker.new ≡ asker.old }
    ensures got { OnOk result (GoesOn P.hears port.old port.new) }
    ensures tried { GoesOnTrying P.hears P.fails port.old port.new }
{
    let info = ask(asker, port, 0, DEVICE_INFO, Load::new())?;
    let maker = ask(asker, port, 0, MANUFACTURER_LABEL, Load::new())?;
    Ok(First {
        device: info_in(&info),
        manufacturer: text_in(&maker),
        answers: info.is_some() || maker.is_some(),
    })
}

/// Asks for texts and hours.
fn ask_texts<P: Port>(
    asker: &mut Asker,
    port: &mut P,
    device: &Option<DeviceInfo>,
) -> Result<Texts, SurveyFault>
    ensures told { IfOk result (λ texts. TellsTexts P.hears asker.old device.now port.old texts port.new) }
    ensures same { asker.new ≡ asker.old }
    ensures got { OnOk result (GoesOn P.hears port.old port.new) }
    ensures tried { GoesOnTrying P.hears P.fails port.old port.new }
{
    let model = ask_text(asker, port, DEVICE_MODEL_DESCRIPTION)?;
    let label = ask_text(asker, port, DEVICE_LABEL)?;
    let personality = ask_name(asker, port, device)?;
    let software = ask_text(asker, port, SOFTWARE_VERSION_LABEL)?;
    let hours = ask_hours(asker, port)?;
    Ok(Texts {
        model,
        label,
        personality,
        software,
        hours,
    })
}

/// How many sub-devices a fixture has.
fn subs_of(device: &Option<DeviceInfo>) -> u16
    ensures { result ≡ subs_of device.now }
{
    match device {
        Some(info) => info.sub_devices,
        None => 0,
    }
}
