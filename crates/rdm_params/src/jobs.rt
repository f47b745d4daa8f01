//! Laws of slow commands and of what is fetched.

mod laws;

pub use laws::{
    one_command_clears, sensor_is_answered_at_once, slow_command_stays_accepted,
    started_work_is_its_command, two_commands_fetch, usual_profile_is_as_slow_as_the_table,
};
