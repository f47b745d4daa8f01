//! Values that the firmware of a fixture places.

ghost use Rattle.std.specs.Prelude.{◌≡◌, ◌==◌, OnOk, OnErr, Some, Err, find, false, length};
ghost use Rattle.rdm_added.specs.Added.{is_pid_of};
ghost use Rattle.rdm_added.specs.Spot.{Spot};
ghost use Rattle.rdm_added.specs.Views.State.{own_entries, added_entries};
ghost use Rattle.rdm_commands.specs.declared.placing.PlaceError.TheVariants.{NoValue};
ghost use Rattle.rdm_commands.specs.Commands.Placing.{own_at, own_refusal, own_values, own_placed, device, place_refusal, after_place, value_refusal, after_value, sensor_refusal};
ghost use Rattle.rdm_table.specs.Table.Rows.{row_of, command_of};
ghost use Rattle.std.specs.Result.{result_err};
ghost use Rattle.std.specs.Option.{option_map_or};
ghost use Rattle.rdm_table.specs.declared.kind.Verb.TheVariants.{Get, Set};
ghost use Rattle.rdm_profile.specs.declared.value.Value.TheVariants.{Byte};
ghost use Rattle.rdm_commands.specs.Commands.Commands.{root_spot};
ghost use Rattle.rdm_table.specs.Table.Kinds.{pid_of};
ghost use Rattle.rdm_table.specs.Table.Uses.{access, read, in_range_of, can_tell};
ghost use Rattle.rdm_added.specs.Map.{update};
ghost use Rattle.rdm_device.specs.Device.Measuring.{placed_by};

use super::Devices;
use super::added::parameter_of;
use crate::PlaceError;
use rdm_device::columns::added;
use rdm_device::{Argument, ParameterDef, Place, RootValues, place_measured};
use rdm_frame::Nack;
use rdm_frame::standard::SUB_DEVICE_ALL_CALL;
use rdm_table::{Kind, Verb, find, is_in_range, is_told, keeps_data, read_argument};

/// How many slots say what a sensor shows: its number, and four values (E1.20 section 10.7.2).
const SENSOR_SLOTS: usize = 9;

impl Devices {
    /// Makes a stored value at the root, or at one sub-device, what a SET of it would make it: at once, with no message,
    /// and for a slow SET too. It may be any that a GET may reply: of LAMP_STATE also 04 (no lamp), 7F (failure) and the maker's 80 to DF, and of
    /// LAMP_ON_MODE the maker's 80 to DF (sections 10.8.4 and 10.8.5), which no SET may ask for. What a sensor shows is placed by the 9 slots with which SENSOR_VALUE replies: the number,
    /// then the present, the lowest, the highest and the recorded value (E1.20 section 10.7.2). A parameter of the maker's own is
    /// placed at the root, whichever commands it has; a scene by the 9 slots of a SET of PRESET_STATUS, also one that can only be read.
    ///
    /// It is `NoDevice` if there is no such sub-device, else `NoValue` if the device stores no value of this parameter,
    /// else `Length` if the data have another length than the value, and else `OutOfRange` if no GET may reply the
    /// value, or there is no such sensor. Then nothing changes.
    #[tactic(auto, unfolding(crate::specs::Commands::Placing::place_refusal, crate::specs::Commands::Placing::after_place))]
    pub fn place(&mut self, sub: u16, pid: u16, data: &[u8]) -> Result<(), PlaceError>
        ensures refused { result_err result ≡ place_refusal self.old sub pid data.now }
        ensures after { self.new ≡ after_place self.old sub pid data.now }
        ensures same { OnErr result (self.new ≡ self.old) }
    {
        if self.device(sub).is_none() {
            return Err(PlaceError::NoDevice);
        }
        let found = match find(pid, sub == 0, Verb::Set) {
            Ok(found) => found,
            Err(nack) => return self.place_own(sub, pid, data, nack),
        };
        if self.profile.lacks(pid) {
            return Err(PlaceError::NoValue);
        }
        if keeps_data(found.kind) {
            self.place_value(sub, found.kind, data)
        } else if pid == Kind::SensorValue.pid() {
            self.place_sensor(data)
        } else {
            Err(PlaceError::NoValue)
        }
    }

    /// Makes the value of a parameter that the maker adds, or one of its scenes, what the data say, whichever commands it has.
    #[inline(never)]
    #[tactic(auto, using(crate::proofs::PlacesOwn::nothing_refused, crate::proofs::PlacesOwn::own_left, crate::proofs::PlacesOwn::own_tabled, crate::proofs::PlacesOwn::own_sub))]
    fn place_own(&mut self, sub: u16, pid: u16, data: &[u8], nack: Nack) -> Result<(), PlaceError>
        requires { access (row_of pid) (sub == 0) Set ≡ Err nack }
        ensures refused { result_err result ≡ option_map_or (λ d. own_refusal d data.now) (own_at self.old sub pid) (Some NoValue) }
        ensures after { OnOk result (self.new ≡ option_map_or (λ d. own_placed self.old d data.now) (own_at self.old sub pid) self.old) }
        ensures same { OnErr result (self.new ≡ self.old) }
    {
        if self.profile.lacks(pid) {
            return Err(PlaceError::NoValue);
        }
        if nack != Nack::UnknownPid {
            return Err(PlaceError::NoValue);
        }
        if sub != 0 {
            return Err(PlaceError::NoValue);
        }
        self.place_at_root(pid, data)
    }

    /// The same at the root, of a PID that the table doesn't have.
    fn place_at_root(&mut self, pid: u16, data: &[u8]) -> Result<(), PlaceError>
        ensures refused { result_err result ≡ option_map_or (λ d. own_refusal d data.now) (find (is_pid_of pid) self.old.profile.particulars.own) (Some NoValue) }
        ensures after { OnOk result (self.new ≡ option_map_or (λ d. own_placed self.old d data.now) (find (is_pid_of pid) self.old.profile.particulars.own) self.old) }
        ensures same { OnErr result (self.new ≡ self.old) }
    {
        let profile = &self.profile;
        match parameter_of(profile, pid) {
            Some(def) => place_parameter(def, data, &mut self.own),
            None => Err(PlaceError::NoValue),
        }
    }

    /// The device of this number, if there is one.
    fn device(&self, sub: u16) -> Option<Place<'_>>
        ensures { result ≡ device self.now sub }
    {
        if sub == SUB_DEVICE_ALL_CALL {
            None
        } else {
            self.first_place(sub, Verb::Get)
        }
    }

    /// Carries out a SET at one device, if its data have the length and a GET may reply the value.
    fn place_value(&mut self, sub: u16, kind: Kind, data: &[u8]) -> Result<(), PlaceError>
        ensures refused { result_err result ≡ value_refusal self.old sub (pid_of kind) (read (command_of (pid_of kind) Set) data.now) }
        ensures after { OnOk result (self.new ≡ after_value self.old sub (pid_of kind) (read (command_of (pid_of kind) Set) data.now)) }
        ensures same { OnErr result (self.new ≡ self.old) }
    {
        let Ok(value) = read_argument(kind, Verb::Set, data) else {
            return Err(PlaceError::Length);
        };
        if !self.tells_at(sub, kind, &value) {
            return Err(PlaceError::OutOfRange);
        }
        self.carry_out(sub, kind, &value);
        Ok(())
    }

    /// Whether there is a device of this number at which a GET may reply the value.
    fn tells_at(&self, sub: u16, kind: Kind, value: &Argument<'_>) -> bool
        ensures { result ≡ option_map_or (λ spot. can_tell (command_of (pid_of kind) Set) spot value.now) (device self.now sub) false }
    {
        match self.device(sub) {
            Some(place) => can_tell(kind, &place, value),
            None => false,
        }
    }

    /// Makes these slots what a sensor shows, if they are as many as it has and there is the sensor.
    fn place_sensor(&mut self, data: &[u8]) -> Result<(), PlaceError>
        ensures refused { result_err result ≡ sensor_refusal self.old data.now }
        ensures after { OnOk result (self.new ≡ record self.old { root = update (placed_by data.now) self.old.root }) }
        ensures same { OnErr result (self.new ≡ self.old) }
    {
        if data.len() != SENSOR_SLOTS {
            return Err(PlaceError::Length);
        }
        if !self.has_sensor(data[0]) {
            return Err(PlaceError::OutOfRange);
        }
        self.show(data);
        Ok(())
    }

    /// Makes the last eight of these slots what the sensor shows that the first one names.
    #[tactic(auto, using(rdm_device::proofs::SensorReads::root_placed))]
    fn show(&mut self, slots: &[u8])
        requires { length slots.now ≡ 9 }
        ensures { self.new ≡ record self.old { root = update (placed_by slots.now) self.old.root } }
    {
        place_measured(&mut self.own, slots);
    }

    /// Whether the root has a sensor of this number.
    fn has_sensor(&self, number: u8) -> bool
        ensures { result ≡ in_range_of (command_of 0x0201 Get) (root_spot self.now) (Byte number) }
    {
        let number = Argument::from_byte(number);
        is_in_range(Kind::SensorValue, Verb::Get, &self.root_place(), &number)
    }
}

/// Whether a GET may reply the value at the device: one in the range of a SET, or one beside these.
fn can_tell(kind: Kind, place: &Place<'_>, value: &Argument<'_>) -> bool
    ensures { result ≡ can_tell (command_of (pid_of kind) Set) place.now value.now }
{
    is_in_range(kind, Verb::Set, place, value) || is_told(kind, place, value)
}

/// Keeps what data stand for as the value of a parameter that the maker adds, or as one of its scenes.
fn place_parameter(def: &ParameterDef, data: &[u8], own: &mut RootValues) -> Result<(), PlaceError>
    ensures refused { result_err result ≡ own_refusal def.now data.now }
    ensures own { own_entries own.new ≡ own_entries own.old }
    ensures after { OnOk result ((spot : Spot) → spot.added ≡ added_entries own.old.added.items
        → added_entries own.new.added.items ≡ own_values spot def.now data.now) }
    ensures same { OnErr result (own.new ≡ own.old) }
{
    if !added::keeps_data(def.shape) {
        return Err(PlaceError::NoValue);
    }
    let Some(value) = added::read_placed(def.shape, data) else {
        return Err(PlaceError::Length);
    };
    if !added::is_placed_within(def, &value) {
        return Err(PlaceError::OutOfRange);
    }
    added::store_placed(def, &value, own);
    Ok(())
}
