//! The values of a device and its sub-devices that outlive power-off (ANSI E1.20-2010, section 10): written as one image,
//! and restored from it.
//!
//! It allocates nothing.
#![tactic(auto)]

mod carrying;
mod errors;
mod kept;
mod laws;
mod profile_text;
mod restoring;
mod said;
mod saving;

pub use errors::{RestoreError, SaveError};
pub use kept::{restore, save_into, saved_len};
pub use laws::{
    altered_image_is_refused, cut_image_is_refused, restore_errors_are_equal_by_value,
    same_devices_are_of_one_make, save_errors_are_equal_by_value, saved_is_restored,
};
pub use said::{
    is_omitted, kept_place, knows, root_place, said_kept, said_len, said_sensors, said_subs,
    sensors_place, subs_place,
};
