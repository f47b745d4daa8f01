//! What is kept of a survey.

ghost use Rattle.std.specs.Prelude.{◌≡◌, IfOk, option_map, option_and_then, map};
ghost use Rattle.rdm_compare.specs.Keeping.{kept_of, kept_rows};

use crate::SubDevices;
use rdm_frame::{Text, Uid};
use rdm_survey::{DeviceInfo, Row};
use std::alloc::{AllocError, Global};

/// What is kept of a fixture. What the fixture didn't tell is `None`.
#[derive(Debug, Drop)]
pub struct Kept {
    /// Its UID.
    pub uid: Uid,
    /// Who made it: MANUFACTURER_LABEL (E1.20 section 10.5.4).
    pub manufacturer: Option<Text>,
    /// What it is: DEVICE_MODEL_DESCRIPTION (section 10.5.3).
    pub model: Option<Text>,
    /// The device model ID (section 10.5.1).
    pub model_id: Option<u16>,
    /// What its owner calls it: DEVICE_LABEL (section 10.5.5).
    pub label: Option<Text>,
    /// What its software is called: SOFTWARE_VERSION_LABEL (section 10.5.9).
    pub software: Option<Text>,
    /// The software version ID (section 10.5.1).
    pub software_id: Option<u32>,
    /// The number of its personality, from 1 (section 10.6.1).
    pub personality: Option<u8>,
    /// What its personality is called: DMX_PERSONALITY_DESCRIPTION (section 10.6.2).
    pub personality_name: Option<Text>,
    /// How many personalities it has.
    pub personalities: Option<u8>,
    /// The DMX512 start address of its root (section 10.6.3). `None` also if it has none.
    pub address: Option<u16>,
    /// How many slots its root takes.
    pub footprint: Option<u16>,
    /// How many hours it has run: DEVICE_HOURS (section 10.8.1).
    pub hours: Option<u32>,
    /// Its sub-devices.
    pub sub_devices: SubDevices,
}

/// What is kept of the rows of a survey, in their order.
pub fn keep(alloc: Global, rows: &[Row]) -> Result<Vec<Kept>, AllocError>
    ensures { IfOk result (λ list. list.items ≡ kept_rows rows.now) }
{
    let mut list = Vec::new(alloc);
    for row in rows {
        list.push(Kept::of(alloc, row)?)?;
    }
    Ok(list)
}

impl Kept {
    /// What is kept of a row.
    pub fn of(alloc: Global, row: &Row) -> Result<Kept, AllocError>
        ensures { IfOk result (λ kept. kept ≡ kept_of row.now) }
    {
        let (model_id, software_id) = ids(&row.device);
        let (personality, personalities) = personalities(&row.device);
        let (address, footprint) = slots(&row.device);
        let mut list = Vec::new(alloc);
        list.extend_from_slice(row.sub_devices.as_slice())?;
        Ok(Kept {
            uid: row.uid,
            manufacturer: copy(&row.manufacturer),
            model: copy(&row.model),
            model_id,
            label: copy(&row.label),
            software: copy(&row.software),
            software_id,
            personality,
            personality_name: copy(&row.personality),
            personalities,
            address,
            footprint,
            hours: row.hours,
            sub_devices: SubDevices::from_vec(list),
        })
    }
}

/// The same text again.
pub(crate) fn copy(text: &Option<Text>) -> Option<Text>
    ensures { result ≡ text.now }
{
    match text {
        Some(text) => Some(text.copy()),
        None => None,
    }
}

/// The model ID and the software version ID.
fn ids(device: &Option<DeviceInfo>) -> (Option<u16>, Option<u32>)
    ensures model { result.0 ≡ option_map (λ device. device.model_id) device.now }
    ensures software { result.1 ≡ option_map (λ device. device.software_id) device.now }
{
    match device {
        Some(device) => (Some(device.model_id), Some(device.software_id)),
        None => (None, None),
    }
}

/// The number of the personality, and how many there are.
fn personalities(device: &Option<DeviceInfo>) -> (Option<u8>, Option<u8>)
    ensures number { result.0 ≡ option_map (λ device. device.personality) device.now }
    ensures count { result.1 ≡ option_map (λ device. device.personalities) device.now }
{
    match device {
        Some(device) => (Some(device.personality), Some(device.personalities)),
        None => (None, None),
    }
}

/// The start address and the footprint.
fn slots(device: &Option<DeviceInfo>) -> (Option<u16>, Option<u16>)
    ensures address { result.0 ≡ option_and_then (λ device. device.address) device.now }
    ensures footprint { result.1 ≡ option_map (λ device. device.footprint) device.now }
{
    match device {
        Some(device) => (device.address, Some(device.footprint)),
        None => (None, None),
    }
}
