//! What a console sends to devices that are named: commands, with their data as people write them, polls for messages, and scripts, with
//! which a device may be tested.
#![tactic(auto)]

mod collecting;
mod entry;
mod equipment;
mod needs;
mod plain;
mod playing;
mod refusing;
mod sending;
mod testing;
mod watching;

pub use collecting::collect_each;
pub use playing::{Play, device_in, play_through};
pub use sending::{Sending, send_each};
pub use testing::{Suite, test_through};
pub use watching::watch;
