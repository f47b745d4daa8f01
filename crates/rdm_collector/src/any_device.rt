//! A collector for any device, also for one that answers polls by other response types than ACK (E1.20 sections 6.3 and 10.3.1).

mod collected;
mod collector;
mod heard;
mod laws;
mod parts;

pub use collected::Collected;
pub use collector::DeviceCollector;
pub use heard::DeviceHeard;
pub use laws::{
    any_device_answers_go_on, any_device_is_recorded, any_device_law_rules_out,
    any_device_loses_none, collecteds_are_equal_by_value, cut_messages_are_joined,
    device_heards_are_equal_by_value,
};
pub use parts::{first_message, is_sure, join_data};
