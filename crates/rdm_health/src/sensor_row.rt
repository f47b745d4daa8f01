//! What is known of a sensor.

use crate::{SensorDefinition, SensorValue};
use rdm_frame::Uid;

/// What is known of one sensor of a fixture.
#[derive(Debug, Drop, PartialEq, Eq)]
pub struct SensorRow {
    /// The fixture.
    pub uid: Uid,
    /// Its sub-device, or 0 for the root (E1.20 section 9).
    pub sub: u16,
    /// The number of the sensor.
    pub number: u8,
    /// Its definition, if it was told.
    pub definition: Option<SensorDefinition>,
    /// Its value, if it was told.
    pub value: Option<SensorValue>,
}
