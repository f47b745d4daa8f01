//! Laws of the table, over every value, command and device. Each is the contract of a call that does nothing.

ghost use Rattle.std.specs.Prelude.{◌≡◌, ◌↔◌, ℕ, List, IsTrue};
ghost use Rattle.rdm_params.specs.Laws.{ReadsBack, ChangesItsKeys, LeavesTheRest, PanelChangesItsKey, PanelLeavesTheRest, PlacesAsSet, OrdersAreTold, OrdersAreCounted, CountsStay, CountsStayPlaced, CountsStayCommitted, CountsStayChanged, LockRefuses, LockKeeps, LockedValuesStay, LocksKnowTheTable, ChangesWhatItTells, LeavesWhatItDoesNotTell, CommitChangesItsKey, CommitChangesItsKeys, ReadingChangesItsSensor, CommitLeavesTheRest, FailedChangesNothing, TheTableAlone, SupportedAscend, SupportedExact};
ghost use Rattle.rdm_params.specs.Pins.{KeptPinOpens, NewPinIsKept};

use crate::{
    Answer, Ask, Change, Changed, Kind, NewError, Outcome, PlaceError, Plate, Verb, Verdict, Work,
};

/// What `write_value` writes of a value that has the form of a command, `read_value` reads back for that command.
pub fn written_value_is_read_back()
    ensures { ReadsBack }
{}

/// Devices whose profile adds no parameters and leaves none out have those of the table: rows, and so answers.
pub fn plain_profile_has_the_table()
    ensures { TheTableAlone }
{}

/// What SUPPORTED_PARAMETERS lists at devices that can be made is in the order of the PIDs, and none is there twice.
pub fn supported_parameters_ascend()
    ensures { SupportedAscend }
{}

/// What it lists is exactly what these devices have, beside what each must: no PID of a parameter that they have is missing, and none is
/// there that they would refuse as unknown.
pub fn supported_parameters_are_exact()
    ensures { SupportedExact }
{}

/// A SET changes no value but those at the keys of its parameter, at the devices that it addresses.
pub fn set_changes_its_own_keys()
    ensures keys { ChangesItsKeys }
    ensures rest { LeavesTheRest }
{}

/// An order, which is a parameter that the profile adds with a SET alone, is told as a change each time that it is accepted: it is
/// counted, from the start and whatever becomes of the values.
pub fn orders_are_told()
    ensures told { OrdersAreTold }
    ensures counted { OrdersAreCounted }
    ensures stays { CountsStay }
    ensures placed { CountsStayPlaced }
    ensures committed { CountsStayCommitted }
    ensures changed { CountsStayChanged }
{}

/// A SET of what the lock state locks, or one that would write its values, is refused, at any device, unless a job carries it out; and it
/// changes nothing.
pub fn locked_parameters_stay()
    ensures refused { LockRefuses }
    ensures kept { LockKeeps }
{}

/// No SET changes a value of a parameter that the lock state locks, at any device, whichever parameter it is of: FACTORY_DEFAULTS passes
/// over what is locked, and RECORD_SENSORS and DMX_BLOCK_ADDRESS are refused. What isn't a SET may: the firmware, the menu, the end of a job
/// and a measurement.
pub fn locked_values_stay()
    ensures { LockedValuesStay }
{}

/// The parameters of the table that a profile can lock are those that have a SET which no job carries out.
pub fn locks_know_the_table()
    ensures { LocksKnowTheTable }
{}

/// After any SETs, values that the firmware places, ends of jobs, changes at the menu and power cycles, the PIN that is kept opens: LOCK_STATE
/// takes it, with each state that there is. And an accepted SET of LOCK_PIN keeps its new PIN, also if that can't be read.
pub fn last_pin_opens()
    ensures opens { KeptPinOpens }
    ensures kept { NewPinIsKept }
{}

/// A SET that tells of one value changes no other: none of another parameter, and none of another device.
pub fn set_changes_what_it_tells()
    ensures key { ChangesWhatItTells }
    ensures rest { LeavesWhatItDoesNotTell }
{}

/// The end of a job changes no value but at the key of its own parameter, and a reading none but its own sensor's; a job
/// that failed changes nothing. Whichever outcome is handed in, no other keys change than those of the SET or of a reading,
/// and only at the devices that the job is for.
pub fn commit_changes_its_own_keys()
    ensures key { CommitChangesItsKey }
    ensures keys { CommitChangesItsKeys }
    ensures sensor { ReadingChangesItsSensor }
    ensures rest { CommitLeavesTheRest }
    ensures failed { FailedChangesNothing }
{}

/// A change at the fixture's own menu changes no value but that of its parameter, at the root.
pub fn panel_changes_its_own_key()
    ensures key { PanelChangesItsKey }
    ensures rest { PanelLeavesTheRest }
{}

/// Where a SET that keeps its data is carried out at one device, and answered at once, placing the same data there leaves
/// the same values.
pub fn placing_is_setting()
    ensures { PlacesAsSet }
{}

/// Two values of `Work` are equal by `==` exactly when they are the same.
pub fn works_are_equal_by_value()
    ensures { (a b : Work) → IsTrue (⟦<Work as PartialEq>⟧.eq a b) ↔ (a ≡ b) }
{}

/// Two values of `Outcome` are equal by `==` exactly when they are the same.
pub fn outcomes_are_equal_by_value()
    ensures { (a b : Outcome) → IsTrue (⟦<Outcome as PartialEq>⟧.eq a b) ↔ (a ≡ b) }
{}

/// Two values of `Verb` are equal by `==` exactly when they are the same.
pub fn verbs_are_equal_by_value()
    ensures { (a b : Verb) → IsTrue (⟦<Verb as PartialEq>⟧.eq a b) ↔ (a ≡ b) }
{}

/// Two values of `Kind` are equal by `==` exactly when they are the same.
pub fn kinds_are_equal_by_value()
    ensures { (a b : Kind) → IsTrue (⟦<Kind as PartialEq>⟧.eq a b) ↔ (a ≡ b) }
{}

/// Two values of `Ask` are equal by `==` exactly when they are the same.
pub fn asks_are_equal_by_value()
    ensures { (a b : Ask) → IsTrue (⟦<Ask as PartialEq>⟧.eq a b) ↔ (a ≡ b) }
{}

/// Two values of `NewError` are equal by `==` exactly when they are the same.
pub fn new_errors_are_equal_by_value()
    ensures { (a b : NewError) → IsTrue (⟦<NewError as PartialEq>⟧.eq a b) ↔ (a ≡ b) }
{}

/// Two values of `PlaceError` are equal by `==` exactly when they are the same.
pub fn place_errors_are_equal_by_value()
    ensures { (a b : PlaceError) → IsTrue (⟦<PlaceError as PartialEq>⟧.eq a b) ↔ (a ≡ b) }
{}

/// Two values of `Answer` are equal by `==` exactly when they are the same.
pub fn answers_are_equal_by_value()
    ensures { (a b : Answer) → IsTrue (⟦<Answer as PartialEq>⟧.eq a b) ↔ (a ≡ b) }
{}

/// Two values of `Verdict` are equal by `==` exactly when they are the same.
pub fn verdicts_are_equal_by_value()
    ensures { (a b : Verdict) → IsTrue (⟦<Verdict as PartialEq>⟧.eq a b) ↔ (a ≡ b) }
{}

/// Two values of `Changed` are equal by `==` exactly when they are the same.
pub fn told_changes_are_equal_by_value()
    ensures { (a b : Changed) → IsTrue (⟦<Changed as PartialEq>⟧.eq a b) ↔ (a ≡ b) }
{}

/// Two values of `Plate` are equal by `==` exactly when they are the same.
pub fn plates_are_equal_by_value()
    ensures { (a b : List ℕ) → IsTrue (⟦<Plate as PartialEq>⟧.eq a b) ↔ (a ≡ b) }
{}

/// Two values of `Change` are equal by `==` exactly when they are the same.
pub fn changes_are_equal_by_value()
    ensures { (a b : Change) → IsTrue (⟦<Change as PartialEq>⟧.eq a b) ↔ (a ≡ b) }
{}
