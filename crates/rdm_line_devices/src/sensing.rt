//! What the sensors of devices read.

use crate::getting::{data_of, device_info_of, get};
use rdm_collector::{Load, Port, Uid, Want};
use rdm_console::Mailbox;
use rdm_frame::standard::MOST_SUB_DEVICES;
use rdm_health::{SensorDefinition, SensorRow, SensorValue, put_sensor_heading, put_sensor_row};
use rdm_host::fault::Fault;
use rdm_host::host::Host;
use rdm_host::line_fault::LineFault;
use rdm_line_talk::{CONSOLE, Console, Tally, Targets};
use std::io::Write;

/// The parameter ID of what a sensor is (E1.20 section 10.7.1).
const SENSOR_DEFINITION: u16 = 0x0200;

/// The parameter ID of what a sensor reads (section 10.7.2).
const SENSOR_VALUE: u16 = 0x0201;

/// Lists the sensors of these devices, and of their sub-devices, as a table. A reading that takes time is waited for.
pub fn sensors<'a, H: Host, P: Port, F: Write>(
    console: &mut Console<'a, H, P, F>,
    targets: &Targets,
) -> Result<(), Fault<'a>> {
    let uids = console.uids_of(targets)?;
    let mut heading = Vec::new(console.teller.rt().alloc());
    put_sensor_heading(&mut heading)?;
    console.teller.tell(heading.as_slice())?;
    let mut tally = Tally::new(uids.len());
    for uid in &uids {
        let done = sense(console, *uid);
        tally.take(&console.teller, done)?;
    }
    tally.end()
}

/// Lists the sensors of a device and of its sub-devices, whose numbers may have gaps (section 9).
fn sense<'a, H: Host, P: Port, F: Write>(
    console: &mut Console<'a, H, P, F>,
    uid: Uid,
) -> Result<(), Fault<'a>> {
    let alloc = console.teller.rt().alloc();
    let mut mailbox = Mailbox::new(alloc, CONSOLE, uid, Want::Advisory);
    let Some(info) = device_info_of(console, &mut mailbox, 0)? else {
        return Err(Fault::Line(LineFault::Silent(uid)));
    };
    sense_part(console, &mut mailbox, 0, info.sensors)?;
    let mut left = info.sub_devices;
    for sub in 1..=MOST_SUB_DEVICES {
        if left == 0 {
            return Ok(());
        }
        if let Some(part) = device_info_of(console, &mut mailbox, sub)? {
            left = left.saturating_sub(1);
            sense_part(console, &mut mailbox, sub, part.sensors)?;
        }
    }
    Ok(())
}

/// Lists so many sensors of the root or of a sub-device.
fn sense_part<'a, H: Host, P: Port, F: Write>(
    console: &mut Console<'a, H, P, F>,
    mailbox: &mut Mailbox,
    sub: u16,
    count: u8,
) -> Result<(), Fault<'a>> {
    let alloc = console.teller.rt().alloc();
    for number in 0..count {
        let row = sensor(console, mailbox, sub, number)?;
        let mut line = Vec::new(alloc);
        put_sensor_row(alloc, &row, &mut line)?;
        console.teller.tell(line.as_slice())?;
    }
    Ok(())
}

/// What a sensor is, and what it reads.
fn sensor<'a, H: Host, P: Port, F: Write>(
    console: &mut Console<'a, H, P, F>,
    mailbox: &mut Mailbox,
    sub: u16,
    number: u8,
) -> Result<SensorRow, Fault<'a>> {
    let uid = mailbox.uid();
    let definition = get(uid, sub, SENSOR_DEFINITION, Load::of(&[number]));
    let value = get(uid, sub, SENSOR_VALUE, Load::of(&[number]));
    Ok(SensorRow {
        uid,
        sub,
        number,
        definition: match data_of(console.outcome(mailbox, &definition)?) {
            Some(data) => SensorDefinition::of(data.as_slice()),
            None => None,
        },
        value: match data_of(console.outcome(mailbox, &value)?) {
            Some(data) => SensorValue::of(data.as_slice()),
            None => None,
        },
    })
}
