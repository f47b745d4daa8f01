//! What a survey knows of a fixture.

use crate::DeviceInfo;
use rdm_frame::{Text, Uid};

/// What a survey of a line knows of one fixture. What the fixture didn't tell is `None`.
#[derive(Debug, Drop, PartialEq, Eq)]
pub struct Row {
    /// Its UID.
    pub uid: Uid,
    /// Who made it: MANUFACTURER_LABEL (E1.20 section 10.5.4).
    pub manufacturer: Option<Text>,
    /// What it is: DEVICE_MODEL_DESCRIPTION (section 10.5.3).
    pub model: Option<Text>,
    /// What its owner calls it: DEVICE_LABEL (section 10.5.5).
    pub label: Option<Text>,
    /// DEVICE_INFO (section 10.5.1).
    pub device: Option<DeviceInfo>,
    /// What its personality is called: DMX_PERSONALITY_DESCRIPTION (section 10.6.2).
    pub personality: Option<Text>,
    /// What its software is called: SOFTWARE_VERSION_LABEL (section 10.5.9).
    pub software: Option<Text>,
    /// How many hours it has run: DEVICE_HOURS (section 10.8.1).
    pub hours: Option<u32>,
    /// How many errors and warnings its status has.
    pub status: Option<StatusCounts>,
    /// Its sub-devices, in any order.
    pub sub_devices: Vec<SubDevice>,
}

/// How many messages of a status are errors, and how many are warnings (E1.20 section 10.3.2, table A-4).
#[derive(Clone, Copy, Debug, PartialEq, Eq)]
pub struct StatusCounts {
    /// The errors.
    pub errors: u32,
    /// The warnings.
    pub warnings: u32,
}

/// What a survey knows of a sub-device (E1.20 section 9).
#[derive(Clone, Copy, Debug, PartialEq, Eq)]
pub struct SubDevice {
    /// Its number, from 1 to 512.
    pub number: u16,
    /// Its start address, if it has one.
    pub address: Option<u16>,
    /// How many slots it takes.
    pub footprint: u16,
}
