//! A profile as a plain struct of C's. A count that is greater than its array stands for the whole array.

mod lists;
pub(crate) mod making;
pub(crate) mod modes;
mod muting;
pub(crate) mod parameters;
pub(crate) mod slow;

ghost use Rattle.std.specs.Prelude.{◌≡◌, ◌≤◌, length, take};
ghost use Rattle.rdm_c.specs.Modes.{slot_in};
ghost use Rattle.rdm_c.specs.Profiles.{personality_in, sensor_in, test_in, status_text_in, unit_in, plain_profile_in};
ghost use Rattle.rdm_c.specs.Texts.{text_in};

use crate::profile::lists::Numbers;
use crate::profile::modes::ModeNumbers;
use crate::profile::parameters::{ChoiceNumbers, LockNumbers, ParameterNumbers};
use crate::profile::slow::{EstimatesNumbers, WorkersNumbers};
use rdm_frame::Text;
use rdm_params::{Personality, Profile, SelfTest, SensorDef, Slot, StatusText, Unit};

/// A text. The header calls it `felosumay_text`.
#[repr(C)]
#[derive(Clone, Copy)]
pub struct TextNumbers {
    /// How many bytes it has.
    pub count: u8,
    /// The bytes.
    pub bytes: [u8; 32],
}

/// A personality (E1.20 section 10.6.1). The header calls it `felosumay_personality`.
#[repr(C)]
#[derive(Clone, Copy)]
pub struct PersonalityNumbers {
    /// How many DMX512 slots it uses.
    pub footprint: u16,
    /// What it is called.
    pub name: TextNumbers,
}

/// What a DMX512 slot is for (sections 10.6.4 to 10.6.6). The header calls it `felosumay_slot`.
#[repr(C)]
#[derive(Clone, Copy)]
pub struct SlotNumbers {
    /// The slot label ID.
    pub label: u16,
    /// The slot type.
    pub kind: u8,
    /// The value of the slot when none is received.
    pub value: u8,
    /// What the slot is called.
    pub name: TextNumbers,
}

/// What a sensor measures (section 10.7.1). The header calls it `felosumay_sensor`.
#[repr(C)]
#[derive(Clone, Copy)]
pub struct SensorNumbers {
    /// The least value that it can give.
    pub low: i16,
    /// The greatest value that it can give.
    pub high: i16,
    /// The least value in normal use.
    pub normal_low: i16,
    /// The greatest value in normal use.
    pub normal_high: i16,
    /// The sensor type.
    pub kind: u8,
    /// The unit of its values.
    pub unit: u8,
    /// The prefix of the unit.
    pub prefix: u8,
    /// Which of the recorded, lowest and highest values it supports.
    pub support: u8,
    /// What the sensor is called.
    pub name: TextNumbers,
    /// Whether SENSOR_VALUE is answered at once, with what was placed last: 0 if a job measures.
    pub at_once: u8,
}

/// A self test (section 10.11). The header calls it `felosumay_self_test`.
#[repr(C)]
#[derive(Clone, Copy)]
pub struct SelfTestNumbers {
    /// The number of the test: neither 0 nor 255.
    pub number: u8,
    /// What the test is called.
    pub name: TextNumbers,
}

/// What a status ID means (section 10.3.3). The header calls it `felosumay_status_text`.
#[repr(C)]
#[derive(Clone, Copy)]
pub struct StatusTextNumbers {
    /// The status ID.
    pub id: u16,
    /// Its meaning.
    pub text: TextNumbers,
}

/// What the root device and a sub-device each have (section 9). The header calls it `felosumay_unit`.
#[repr(C)]
#[derive(Clone, Copy)]
pub struct UnitNumbers {
    /// The software version ID (section 10.5.1).
    pub software: u32,
    /// The model ID (section 10.5.1).
    pub model: u16,
    /// The product category (section 10.5.1).
    pub category: u16,
    /// The DMX512 start address that the device starts with (section 10.6.3).
    pub start: u16,
    /// What the model is called (section 10.5.3).
    pub model_text: TextNumbers,
    /// What the manufacturer is called (section 10.5.4).
    pub maker_text: TextNumbers,
    /// The label that the device starts with (section 10.5.5).
    pub label: TextNumbers,
    /// What the software version is called (section 10.5.9).
    pub software_text: TextNumbers,
    /// How many personalities there are.
    pub personality_count: u8,
    /// The personalities, of which the first is number 1 (section 10.6.1).
    pub personalities: [PersonalityNumbers; 8],
}

/// What a root device and its sub-devices are made with. The header calls it `felosumay_profile`.
///
/// Its five pointers are never followed: a call that takes a profile takes the lists to which they point as slices beside it.
#[repr(C)]
pub struct ProfileNumbers {
    /// The root device.
    pub root: UnitNumbers,
    /// What each sub-device starts as.
    pub sub: UnitNumbers,
    /// The boot software version ID (section 10.5.10).
    pub boot: u32,
    /// How many sub-devices there are.
    pub subs: u16,
    /// How many presets there are (section 10.11).
    pub presets: u16,
    /// What the boot software version is called (section 10.5.11).
    pub boot_text: TextNumbers,
    /// How many languages there are.
    pub language_count: u8,
    /// How many slots there are.
    pub slot_count: u8,
    /// How many sensors there are.
    pub sensor_count: u8,
    /// How many self tests there are.
    pub test_count: u8,
    /// How many status IDs there are.
    pub status_text_count: u8,
    /// The language codes, each of two letters (section 10.5.7). The device starts with the first.
    pub languages: [u16; 8],
    /// The DMX512 slots of the root device (section 10.6.4).
    pub slots: [SlotNumbers; 46],
    /// The sensors of the root device (section 10.7).
    pub sensors: [SensorNumbers; 8],
    /// The self tests of the root device (section 10.11).
    pub tests: [SelfTestNumbers; 8],
    /// The status IDs of the device (section 10.3.3).
    pub status_texts: [StatusTextNumbers; 8],
    /// How many DMX512 slots the root device uses beside those that `slots` describes.
    pub more_slots: u16,
    /// Where the parameters of the maker's own lie, in the order of their PIDs.
    pub parameters: *const ParameterNumbers,
    /// How many there are.
    pub parameter_count: usize,
    /// Where the PIDs of the standard's parameters lie that the device doesn't have.
    pub without: *const u16,
    /// How many there are.
    pub without_count: usize,
    /// How long its slow commands take.
    pub estimates: EstimatesNumbers,
    /// Which worker carries out which of them.
    pub workers: WorkersNumbers,
    /// Whether it can do nothing until firmware is uploaded to it: 0 if it can (section 7.6).
    pub boot_loader: u8,
    /// Whether a proxy answers for it: 0 if it answers for itself (section 7.6).
    pub proxied_device: u8,
    /// Whether the message of a change at the menu takes the place of one that still waits and tells of the same parameter: 0 if each
    /// waits.
    pub newest_only: u8,
    /// Where the names lie of the things of which parameters let choose one.
    pub choices: *const ChoiceNumbers,
    /// How many there are.
    pub choice_count: usize,
    /// How many locks there are.
    pub lock_count: u8,
    /// Which parameters the lock states keep from being set.
    pub locks: [LockNumbers; 64],
    /// The UID of its first port, if it has several, each with a UID of its own: six zeros if it has one port (section 7.6).
    pub binding_uid: [u8; 6],
    /// Where the personalities of the root lie that are behind those of its unit, in the order of their numbers.
    pub modes: *const ModeNumbers,
    /// How many there are.
    pub mode_count: usize,
    /// Where the slots of all of these lie.
    pub mode_slots: *const SlotNumbers,
    /// How many there are.
    pub mode_slot_count: usize,
}

impl TextNumbers {
    /// The text.
    pub(crate) fn text(&self) -> Text
        ensures { result ≡ text_in self.now }
    {
        Text::of(&self.bytes[..usize::from(self.count).min(32)])
    }
}

impl Numbers<Personality> for PersonalityNumbers {
    ghost stands_for = { personality_in };

    fn entry(&self) -> Personality {
        Personality {
            footprint: self.footprint,
            name: self.name.text(),
        }
    }
}

impl Numbers<Slot> for SlotNumbers {
    ghost stands_for = { slot_in };

    fn entry(&self) -> Slot {
        Slot {
            kind: self.kind,
            label: self.label,
            value: self.value,
            name: self.name.text(),
        }
    }
}

impl Numbers<SensorDef> for SensorNumbers {
    ghost stands_for = { sensor_in };

    fn entry(&self) -> SensorDef {
        SensorDef {
            kind: self.kind,
            unit: self.unit,
            prefix: self.prefix,
            low: self.low,
            high: self.high,
            normal_low: self.normal_low,
            normal_high: self.normal_high,
            support: self.support,
            name: self.name.text(),
            at_once: self.at_once != 0,
        }
    }
}

impl Numbers<SelfTest> for SelfTestNumbers {
    ghost stands_for = { test_in };

    fn entry(&self) -> SelfTest {
        SelfTest {
            number: self.number,
            name: self.name.text(),
        }
    }
}

impl Numbers<StatusText> for StatusTextNumbers {
    ghost stands_for = { status_text_in };

    fn entry(&self) -> StatusText {
        StatusText {
            id: self.id,
            text: self.text.text(),
        }
    }
}

impl UnitNumbers {
    /// How many personalities it has.
    fn personality_total(&self) -> usize
        ensures { result ≡ length (unit_in self.now).personalities.items }
    {
        usize::from(self.personality_count).min(8)
    }

    /// Makes a unit this one.
    fn write(&self, unit: &mut Unit)
        ensures { unit.new ≡ unit_in self.now }
    {
        unit.model = self.model;
        unit.category = self.category;
        unit.software = self.software;
        unit.model_text = self.model_text.text();
        unit.maker_text = self.maker_text.text();
        unit.label = self.label.text();
        unit.software_text = self.software_text.text();
        let count = usize::from(self.personality_count).min(8);
        lists::fill(&self.personalities[..count], &mut unit.personalities);
        unit.start = self.start;
    }
}

impl ProfileNumbers {
    /// Makes a profile this one, but for what sets it apart, which stays.
    pub(crate) fn write(&self, profile: &mut Profile)
        ensures { profile.new ≡ record (plain_profile_in self.now) { particulars = profile.old.particulars } }
    {
        self.root.write(&mut profile.root);
        self.sub.write(&mut profile.sub);
        profile.subs = self.subs;
        profile.boot = self.boot;
        profile.boot_text = self.boot_text.text();
        self.write_lists(profile);
        profile.presets = self.presets;
        profile.workers = self.workers.workers();
    }

    /// Which parameters the lock states keep from being set.
    pub(crate) fn lock_entries(&self) -> &[LockNumbers]
        ensures value { result.now ≡ take self.now.lock_count self.now.locks }
        ensures few { length result.now ≤ 64 }
    {
        first_locks(&self.locks, self.lock_count)
    }

    /// Makes the lists of a profile those of this one.
    fn write_lists(&self, profile: &mut Profile)
        ensures { profile.new ≡ record profile.old {
          languages = (plain_profile_in self.now).languages;
          slots = (plain_profile_in self.now).slots;
          sensors = (plain_profile_in self.now).sensors;
          tests = (plain_profile_in self.now).tests;
          status_texts = (plain_profile_in self.now).status_texts;
        } }
    {
        let count = usize::from(self.language_count).min(8);
        lists::copy(&self.languages[..count], &mut profile.languages);
        let count = usize::from(self.slot_count).min(46);
        lists::fill(&self.slots[..count], &mut profile.slots);
        let count = usize::from(self.sensor_count).min(8);
        lists::fill(&self.sensors[..count], &mut profile.sensors);
        let count = usize::from(self.test_count).min(8);
        lists::fill(&self.tests[..count], &mut profile.tests);
        let count = usize::from(self.status_text_count).min(8);
        lists::fill(&self.status_texts[..count], &mut profile.status_texts);
    }
}

/// So many locks, or all of them.
fn first_locks(locks: &[LockNumbers; 64], count: u8) -> &[LockNumbers]
    ensures value { result.now ≡ take count locks.now }
    ensures few { length result.now ≤ 64 }
{
    &locks[..usize::from(count).min(64)]
}
