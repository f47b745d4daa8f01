//! Laws of `==`, by which tests and the reader of files compare. Each is the contract of a call that does nothing.

ghost use Rattle.std.specs.Prelude.{◌≡◌, ◌↔◌, IsTrue};

use crate::{
    ChoiceName, Estimates, Field, Lock, Mode, MuteReply, ParameterDef, Particular, Particulars,
    Personality, Profile, Rights, SelfTest, SensorDef, Shape, Slot, StatusText, Unit, Value, Width,
    Worker, Workers,
};
use rdm_frame::uids_are_equal_by_value;

/// Two personalities are equal by `==` exactly when their footprints and their names are.
pub fn personalities_are_equal_by_value()
    ensures { (a b : Personality) → IsTrue (⟦<Personality as PartialEq>⟧.eq a b) ↔ (a ≡ b) }
{}

/// Two slots are equal by `==` exactly when each of their fields is.
pub fn slots_are_equal_by_value()
    ensures { (a b : Slot) → IsTrue (⟦<Slot as PartialEq>⟧.eq a b) ↔ (a ≡ b) }
{}

/// Two definitions of sensors are equal by `==` exactly when each of their fields is.
pub fn sensor_defs_are_equal_by_value()
    ensures { (a b : SensorDef) → IsTrue (⟦<SensorDef as PartialEq>⟧.eq a b) ↔ (a ≡ b) }
{}

/// Two self tests are equal by `==` exactly when their numbers and their names are.
pub fn self_tests_are_equal_by_value()
    ensures { (a b : SelfTest) → IsTrue (⟦<SelfTest as PartialEq>⟧.eq a b) ↔ (a ≡ b) }
{}

/// Two meanings of status IDs are equal by `==` exactly when the IDs and the texts are.
pub fn status_texts_are_equal_by_value()
    ensures { (a b : StatusText) → IsTrue (⟦<StatusText as PartialEq>⟧.eq a b) ↔ (a ≡ b) }
{}

/// Two units are equal by `==` exactly when each of their fields is.
pub fn units_are_equal_by_value()
    ensures { (a b : Unit) → IsTrue (⟦<Unit as PartialEq>⟧.eq a b) ↔ (a ≡ b) }
{
    personalities_are_equal_by_value();
}

/// Two values of `Rights` are equal by `==` exactly when they are the same.
pub fn rights_are_equal_by_value()
    ensures { (a b : Rights) → IsTrue (⟦<Rights as PartialEq>⟧.eq a b) ↔ (a ≡ b) }
{}

/// Two shapes are equal by `==` exactly when they are the same.
pub fn shapes_are_equal_by_value()
    ensures { (a b : Shape) → IsTrue (⟦<Shape as PartialEq>⟧.eq a b) ↔ (a ≡ b) }
{}

/// Two widths are equal by `==` exactly when they are the same.
pub fn widths_are_equal_by_value()
    ensures { (a b : Width) → IsTrue (⟦<Width as PartialEq>⟧.eq a b) ↔ (a ≡ b) }
{}

/// Two fields are equal by `==` exactly when their widths and their numbers are.
pub fn fields_are_equal_by_value()
    ensures { (a b : Field) → IsTrue (⟦<Field as PartialEq>⟧.eq a b) ↔ (a ≡ b) }
{
    widths_are_equal_by_value();
}

/// Two names of choices are equal by `==` exactly when their frequencies and their texts are.
pub fn choice_names_are_equal_by_value()
    ensures { (a b : ChoiceName) → IsTrue (⟦<ChoiceName as PartialEq>⟧.eq a b) ↔ (a ≡ b) }
{}

/// Two locks are equal by `==` exactly when their states and their PIDs are.
pub fn locks_are_equal_by_value()
    ensures { (a b : Lock) → IsTrue (⟦<Lock as PartialEq>⟧.eq a b) ↔ (a ≡ b) }
{}

/// Two parameters of the maker's own are equal by `==` exactly when each of their fields is.
pub fn parameter_defs_are_equal_by_value()
    ensures { (a b : ParameterDef) → IsTrue (⟦<ParameterDef as PartialEq>⟧.eq a b) ↔ (a ≡ b) }
{
    rights_are_equal_by_value();
    shapes_are_equal_by_value();
    fields_are_equal_by_value();
}

/// Two values of `Estimates` are equal by `==` exactly when each of their fields is.
pub fn estimates_are_equal_by_value()
    ensures { (a b : Estimates) → IsTrue (⟦<Estimates as PartialEq>⟧.eq a b) ↔ (a ≡ b) }
{}

/// Two values of `MuteReply` are equal by `==` exactly when each of their fields is.
pub fn mute_replies_are_equal_by_value()
    ensures { (a b : MuteReply) → IsTrue (⟦<MuteReply as PartialEq>⟧.eq a b) ↔ (a ≡ b) }
{
    uids_are_equal_by_value();
}

/// Two modes are equal by `==` exactly when their personalities are, and their own slots or those that they share.
pub fn modes_are_equal_by_value()
    ensures { (a b : Mode) → IsTrue (⟦<Mode as PartialEq>⟧.eq a b) ↔ (a ≡ b) }
{
    personalities_are_equal_by_value();
    slots_are_equal_by_value();
}

/// Two values of `Worker` are equal by `==` exactly when they are the same.
pub fn workers_are_equal_by_value()
    ensures { (a b : Worker) → IsTrue (⟦<Worker as PartialEq>⟧.eq a b) ↔ (a ≡ b) }
{}

/// Two values of `Workers` are equal by `==` exactly when each of their fields is.
pub fn choices_of_workers_are_equal_by_value()
    ensures { (a b : Workers) → IsTrue (⟦<Workers as PartialEq>⟧.eq a b) ↔ (a ≡ b) }
{
    workers_are_equal_by_value();
}

/// Two devices are set apart alike by `==` exactly when each field of what sets them apart is equal, whether or not it takes memory.
pub fn particulars_are_equal_by_value()
    ensures { (a b : Particular) → IsTrue (⟦<Particulars as PartialEq>⟧.eq a b) ↔ (a ≡ b) }
{
    parameter_defs_are_equal_by_value();
    choice_names_are_equal_by_value();
    locks_are_equal_by_value();
    estimates_are_equal_by_value();
    mute_replies_are_equal_by_value();
    modes_are_equal_by_value();
}

/// Two profiles are equal by `==` exactly when each of their fields is.
pub fn profiles_are_equal_by_value()
    ensures { (p q : Profile) → IsTrue (⟦<Profile as PartialEq>⟧.eq p q) ↔ (p ≡ q) }
{
    units_are_equal_by_value();
    slots_are_equal_by_value();
    sensor_defs_are_equal_by_value();
    self_tests_are_equal_by_value();
    status_texts_are_equal_by_value();
    choices_of_workers_are_equal_by_value();
    particulars_are_equal_by_value();
}

/// Two values are equal by `==` exactly when they have the same form and all that they hold is equal.
pub fn values_are_equal_by_value()
    ensures { (a b : Value) → IsTrue (⟦<Value as PartialEq>⟧.eq a b) ↔ (a ≡ b) }
{
    sensor_defs_are_equal_by_value();
}
