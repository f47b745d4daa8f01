//! The values that devices keep.

ghost use Rattle.std.specs.Prelude.{◌≡◌, ◌++◌, IfOk, OnOk};
ghost use Rattle.rdm_added.specs.Parameters.{added_at_start, kept_at_start};
ghost use Rattle.rdm_added.specs.Views.State.{added_entries};

use crate::added::{is_order, scene_count, start_scenes};
use arrayvec::ArrayVec;
use rdm_frame::Text;
use rdm_profile::{ParameterDef, Profile, SensorDef, Unit};
use std::alloc::{AllocError, Global};

/// What every device keeps (E1.20 section 10).
// Numbers of one byte stand side by side, so that none leaves a gap: there are up to 513 of these.
#[derive(Debug, Drop)]
pub struct CommonValues {
    /// The label (section 10.5.5).
    pub label: Text,
    /// The number of the current personality, from 1 (section 10.6.1).
    pub personality: u8,
    /// The least rank of the status entries that are noted, or 0.
    pub report_threshold: u8,
    /// The DMX512 start address (section 10.6.3).
    pub start: u16,
    /// The hours that the lamp was on (section 10.8.2).
    pub lamp_hours: u32,
    /// How often the lamp was struck (section 10.8.3).
    pub lamp_strikes: u32,
    /// The state of the lamp (section 10.8.4).
    pub lamp_state: u8,
    /// When the lamp is struck (section 10.8.5).
    pub lamp_on_mode: u8,
    /// 1 while the device identifies itself (section 10.11).
    pub identify: u8,
    /// The power state (section 10.11 and table A-11).
    pub power_state: u8,
}

impl CommonValues {
    ghost use Rattle.rdm_added.specs.Parameters.{common_at_start};
    ghost use Rattle.rdm_added.specs.Views.State.{common_entries};

    /// What a device starts with.
    #[tactic(auto, unfolding(crate::specs::Views::State::common_entries, crate::specs::Parameters::common_at_start))]
    pub fn at_start(unit: &Unit) -> CommonValues
        ensures { common_entries result ≡ common_at_start unit.now }
    {
        CommonValues {
            label: unit.label.copy(),
            personality: 1,
            report_threshold: 2,
            start: unit.start,
            lamp_hours: 0,
            lamp_strikes: 0,
            lamp_state: 0,
            lamp_on_mode: 0,
            identify: 0,
            power_state: 0xFF,
        }
    }
}

/// What a sensor measured, in its own unit and prefix (section 10.7.2).
#[derive(Clone, Copy, Debug, Default)]
pub struct Measured {
    /// The present value.
    pub present: i16,
    /// The lowest value so far.
    pub lowest: i16,
    /// The highest value so far.
    pub highest: i16,
    /// The recorded value.
    pub recorded: i16,
}

/// What is kept of a parameter that the maker added.
#[derive(Debug, Drop)]
pub struct Kept {
    /// Its PID.
    pub pid: u16,
    /// Which of its values it is: 0 for its data, and 1 for how many orders there were, of a parameter that is one.
    pub index: u16,
    /// The value.
    pub bytes: Text,
}

/// What the root device keeps beside it.
#[derive(Debug, Drop)]
pub struct RootValues {
    /// The code of the language, of two letters (section 10.5.8).
    pub language: u16,
    /// The hours that the device was on (section 10.8.1).
    pub device_hours: u32,
    /// How often the device was switched on (section 10.8.6).
    pub power_cycles: u32,
    /// Whether the display is inverted (section 10.9).
    pub display_invert: u8,
    /// How bright the display is (section 10.9).
    pub display_level: u8,
    /// Whether pan is inverted (section 10.10).
    pub pan_invert: u8,
    /// Whether tilt is inverted (section 10.10).
    pub tilt_invert: u8,
    /// Whether pan and tilt are swapped (section 10.10).
    pub pan_tilt_swap: u8,
    /// The self test that was last switched on, or 0 (section 10.11).
    pub self_test: u8,
    /// The preset and its level (section 10.11).
    pub preset: (u16, u8),
    /// What each sensor measured.
    pub sensors: ArrayVec<Measured, 8>,
    /// What is kept of each parameter that the maker added.
    pub added: Vec<Kept>,
}

impl RootValues {
    ghost use Rattle.rdm_added.specs.Parameters.{own_at_start, sensors_at_start, added_at_start};
    ghost use Rattle.rdm_added.specs.Views.State.{own_entries, sensor_entries, added_entries};

    /// What the root starts with.
    #[tactic(auto, unfolding(crate::specs::Views::State::own_entries, crate::specs::Parameters::own_at_start))]
    pub fn at_start(alloc: Global, profile: &Profile) -> Result<RootValues, AllocError>
        ensures own { IfOk result (λ own. own_entries own ≡ own_at_start profile.now) }
        ensures added { IfOk result (λ own. added_entries own.added.items ≡ added_at_start profile.now.particulars.own) }
    {
        let added = start_added(alloc, profile.particulars.own())?;
        Ok(RootValues {
            language: profile.languages.first().copied().unwrap_or(0),
            device_hours: 0,
            power_cycles: 0,
            display_invert: 0,
            display_level: 0xFF,
            pan_invert: 0,
            tilt_invert: 0,
            pan_tilt_swap: 0,
            self_test: 0,
            preset: (0, 0),
            sensors: RootValues::sensors_at_start(&profile.sensors),
            added,
        })
    }

    /// What each sensor starts with.
    #[tactic(auto, using(crate::proofs::SensorStarts::replicate_push, crate::proofs::SensorStarts::sensors_start))]
    fn sensors_at_start(sensors: &ArrayVec<SensorDef, 8>) -> ArrayVec<Measured, 8>
        ensures { sensor_entries 0 result.items ≡ sensors_at_start 0 sensors.now.items }
    {
        let mut measured = ArrayVec::new();
        for _ in 0..sensors.len() {
            measured.push(Measured {
                present: 0,
                lowest: 0,
                highest: 0,
                recorded: 0,
            });
        }
        measured
    }
}

/// What each parameter that the maker added starts with.
#[tactic(auto, using(crate::proofs::KeptValues::start_step, std::proofs::lemmas::Grind::common_steps))]
fn start_added(alloc: Global, defs: &[ParameterDef]) -> Result<Vec<Kept>, AllocError>
    ensures { IfOk result (λ added. added_entries added.items ≡ added_at_start defs.now) }
{
    let mut added = Vec::with_capacity(alloc, values_of(defs))?;
    for i in 0..defs.len() {
        start_one(&defs[i], &mut added)?;
    }
    Ok(added)
}

/// How many values are kept of them, so that memory is taken once, and for no more.
// A hint: were it wrong, the list would grow.
fn values_of(defs: &[ParameterDef]) -> usize {
    let mut values: usize = 0;
    for i in 0..defs.len() {
        values = values.saturating_add(values_of_one(&defs[i]));
    }
    values
}

/// How many are kept of one: its data, the count of an order, and its scenes.
fn values_of_one(def: &ParameterDef) -> usize {
    let count = if is_order(def.rights) { 1 } else { 0 };
    1 + count + scene_count(def) as usize
}

/// Adds what one of them starts with.
#[tactic(auto, using(crate::proofs::KeptValues::start_data, crate::proofs::KeptValues::start_order))]
fn start_one(def: &ParameterDef, added: &mut Vec<Kept>) -> Result<(), AllocError>
    ensures { OnOk result (added_entries added.new.items ≡ added_entries added.old.items ++ kept_at_start def.now) }
{
    added.push(Kept {
        pid: def.pid,
        index: 0,
        bytes: def.start.copy(),
    })?;
    if is_order(def.rights) {
        added.push(Kept {
            pid: def.pid,
            index: 1,
            bytes: Text::of(&[0]),
        })?;
    }
    start_scenes(def, added)
}
