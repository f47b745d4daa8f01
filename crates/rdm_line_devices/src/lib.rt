//! What devices of a line say of themselves, and what they are told: their sensors and status, a file that describes one, whether they
//! identify themselves, and the settings of a file.
#![tactic(auto)]

mod describing;
mod diagnosing;
mod getting;
mod identifying;
mod sensing;
mod setting;

pub use describing::portray;
pub use diagnosing::status;
pub use identifying::{Identifying, identify};
pub use sensing::sensors;
pub use setting::{Settings, set_all};
