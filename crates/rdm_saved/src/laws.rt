//! Laws of images, over all values. Each is the contract of a call that does nothing.

ghost use Rattle.std.specs.Prelude.{◌≡◌, ◌↔◌, IsTrue};
ghost use Rattle.rdm_saved.specs.Laws.{SavedIsRestored, SameDevicesAreOfOneMake, CutIsRefused, AlteredIsRefused};

use crate::{RestoreError, SaveError};

/// What is saved of values is restored, on any values of the same devices: the values that last are the saved ones, and
/// the others stay.
pub fn saved_is_restored()
    ensures { SavedIsRestored }
{}

/// Values of one profile with as many sensors and sub-devices are of one make, as the law above asks.
pub fn same_devices_are_of_one_make()
    ensures { SameDevicesAreOfOneMake }
{}

/// An image that would be restored is refused as `Length` when it is cut anywhere.
pub fn cut_image_is_refused()
    ensures { CutIsRefused }
{}

/// An image that would be restored is refused as `Altered` when one byte of it is another.
pub fn altered_image_is_refused()
    ensures { AlteredIsRefused }
{}

/// Two errors are equal by `==` exactly when they are the same.
pub fn save_errors_are_equal_by_value()
    ensures { (a b : SaveError) → IsTrue (⟦<SaveError as PartialEq>⟧.eq a b) ↔ (a ≡ b) }
{}

/// Two errors are equal by `==` exactly when they are the same.
pub fn restore_errors_are_equal_by_value()
    ensures { (a b : RestoreError) → IsTrue (⟦<RestoreError as PartialEq>⟧.eq a b) ↔ (a ≡ b) }
{}
