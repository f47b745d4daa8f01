//! The sub-devices of a fixture.

ghost use Rattle.std.specs.Prelude.{◌≡◌, List};
ghost use Rattle.rdm_survey.specs.declared.row.SubDevice.{SubDevice as TheSubDevice};

use rdm_survey::SubDevice;
use std::marker::Model;

/// The sub-devices of a fixture. A contract sees the list of them.
#[derive(Debug, Drop)]
pub struct SubDevices {
    list: Vec<SubDevice>,
}

impl Model for SubDevices {
    ghost Value = { List TheSubDevice };

    ghost view = { λ subs. subs.list.items };
}

impl SubDevices {
    /// These sub-devices.
    pub fn from_vec(list: Vec<SubDevice>) -> SubDevices
        ensures { result ≡ list.items }
    {
        SubDevices { list }
    }

    /// The sub-devices, as a slice.
    pub fn as_slice(&self) -> &[SubDevice]
        ensures { result.now ≡ self.now }
    {
        self.list.as_slice()
    }
}
