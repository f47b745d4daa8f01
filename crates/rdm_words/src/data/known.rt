//! What is known of fixtures beforehand.

ghost use Rattle.std.specs.Prelude.{◌≡◌};
ghost use Rattle.rdm_words.specs.Known.{facts_at};

use crate::data::described::{Added, described_in};
use crate::learned::{Learned, SENSOR_DEFINITION, STATUS_ID_DESCRIPTION};
use rdm_device::{ChoiceName, ParameterDef, Profile, SensorDef, StatusText};
use rdm_frame::Uid;
use rdm_frame::standard::PARAMETER_DESCRIPTION;

/// What is known of fixtures, and doesn't stand in the frames: the units of their sensors, what their own status IDs mean, the parameters
/// that they add, and what the things are called of which one is chosen. What is known of a fixture is used for its own frames alone, and
/// for the lines of a trace that tell of it.
#[derive(Clone, Copy)]
pub struct Known<'a> {
    /// The fixture whose profile is known.
    uid: Option<Uid>,
    parts: Option<Parts<'a>>,
    learned: Option<&'a Learned>,
}

/// What is known of one fixture.
#[derive(Clone, Copy)]
pub(crate) struct Facts<'a> {
    /// What its profile says, if that is known.
    parts: Option<Parts<'a>>,
    /// What that fixture said of itself is found by its UID.
    uid: Option<Uid>,
    learned: Option<&'a Learned>,
}

/// What a profile says that the frames don't.
#[derive(Clone, Copy)]
pub(crate) struct Parts<'a> {
    sensors: &'a [SensorDef],
    status_texts: &'a [StatusText],
    parameters: &'a [ParameterDef],
    choices: &'a [ChoiceName],
}

impl<'a> Parts<'a> {
    fn of(profile: &'a Profile) -> Parts<'a> {
        Parts {
            sensors: profile.sensors.as_slice(),
            status_texts: profile.status_texts.as_slice(),
            parameters: profile.particulars.own(),
            choices: profile.particulars.choices(),
        }
    }

    fn parameter(&self, pid: u16) -> Option<&'a ParameterDef> {
        self.parameters.iter().find(|def| def.pid == pid)
    }

    fn status_text(&self, id: u16) -> Option<&'a [u8]> {
        for status in self.status_texts {
            if status.id == id {
                return Some(status.text.as_slice());
            }
        }
        None
    }
}

impl<'a> Known<'a> {
    /// Nothing: numbers stand if the standard has no name.
    pub fn nothing() -> Known<'a> {
        Known {
            uid: None,
            parts: None,
            learned: None,
        }
    }

    /// The fixture with this UID and this profile.
    pub fn of(uid: Uid, profile: &'a Profile) -> Known<'a> {
        Known {
            uid: Some(uid),
            parts: Some(Parts::of(profile)),
            learned: None,
        }
    }

    /// What fixtures said of themselves.
    pub fn learned(learned: &'a Learned) -> Known<'a> {
        Known::nothing().and_learned(learned)
    }

    /// This, and what fixtures said of themselves, where the profile doesn't say it.
    pub fn and_learned(self, learned: &'a Learned) -> Known<'a> {
        Known {
            uid: self.uid,
            parts: self.parts,
            learned: Some(learned),
        }
    }

    /// What is known of the fixture with this UID.
    pub(crate) fn at(&self, uid: Uid) -> Facts<'a>
        ensures { result ≡ facts_at self.now uid }
    {
        let parts = match self.uid {
            Some(own) if own == uid => self.parts,
            _ => None,
        };
        Facts {
            parts,
            uid: Some(uid),
            learned: self.learned,
        }
    }
}

impl<'a> Facts<'a> {
    /// Nothing.
    pub(crate) fn none() -> Facts<'a> {
        Facts {
            parts: None,
            uid: None,
            learned: None,
        }
    }

    /// The fixture with this profile, whatever its UID.
    pub(crate) fn whose(profile: &'a Profile) -> Facts<'a> {
        Facts {
            parts: Some(Parts::of(profile)),
            uid: None,
            learned: None,
        }
    }

    /// The prefix and the unit of the sensor with this number.
    pub(crate) fn unit_of(&self, number: u8) -> Option<(u8, u8)> {
        if let Some(parts) = self.parts {
            if let Some(sensor) = parts.sensors.get(usize::from(number)) {
                return Some((sensor.prefix, sensor.unit));
            }
        }
        match self.told(SENSOR_DEFINITION, &[number])? {
            [of, _, unit, prefix, ..] if *of == number => Some((*prefix, *unit)),
            _ => None,
        }
    }

    /// The parameter that the fixture adds with this PID.
    pub(crate) fn parameter(&self, pid: u16) -> Option<Added<'a>> {
        if let Some(parts) = self.parts {
            if let Some(def) = parts.parameter(pid) {
                return Some(Added::of(def));
            }
        }
        described_in(pid, self.told(PARAMETER_DESCRIPTION, &pid.to_be_bytes())?)
    }

    /// What a thing is called of which this parameter lets choose.
    pub(crate) fn choice(&self, pid: u16, number: u8) -> Option<&'a [u8]> {
        self.name_told_by(pid.checked_add(1)?, number)
    }

    /// What a thing is called, by the parameter that tells it.
    pub(crate) fn name_told_by(&self, pid: u16, number: u8) -> Option<&'a [u8]> {
        for name in self.parts?.choices {
            if name.pid == pid && name.number == number {
                return Some(name.name.as_slice());
            }
        }
        None
    }

    /// The text of a status ID of the fixture's own.
    pub(crate) fn status_text(&self, id: u16) -> Option<&'a [u8]> {
        if let Some(parts) = self.parts {
            if let Some(text) = parts.status_text(id) {
                return Some(text);
            }
        }
        self.told(STATUS_ID_DESCRIPTION, &id.to_be_bytes())
    }

    /// What the fixture told when it was asked so.
    fn told(&self, pid: u16, asked: &[u8]) -> Option<&'a [u8]> {
        match (self.learned, self.uid) {
            (Some(learned), Some(uid)) => learned.told(uid, pid, asked),
            _ => None,
        }
    }
}
