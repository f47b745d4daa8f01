//! The tests of rdm_images, in a crate of their own: a crate with tests is proved twice. And a memory that loses power at any byte, which
//! is proved to be one: so what is asked of a memory can be met, and what is promised of a save holds whenever power fails.
#![tactic(auto)]

mod cells;
mod power;
#[cfg(test)]
mod tests;

pub use cells::{AREA, Cells};
pub use power::{old_or_new_after_power_failure, save_after_restart};
