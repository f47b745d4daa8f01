//! What a SET changed.

ghost use Rattle.std.specs.Prelude.{◌≡◌, Some, None, if◌then◌else◌};
ghost use Rattle.rdm_commands.specs.Commands.Changed.{change_of};

use crate::commands::DMX_BLOCK_ADDRESS;
use rdm_frame::standard::SUB_DEVICE_ALL_CALL;
use rdm_table::Kind;

/// What a SET changed, so that nobody needs to look at every value after each request.
#[derive(Clone, Copy, Debug, PartialEq, Eq)]
pub enum Changed {
    /// What this parameter shows, at the root or at one sub-device.
    Value {
        /// The sub-device, from 1, or 0 for the root (E1.20 section 9).
        sub: u16,
        /// The parameter. After RECORD_SENSORS it is SENSOR_VALUE, which shows what was recorded (section 10.7.3).
        pid: u16,
    },
    /// What several parameters or devices show: an all-call is for every sub-device (section 9), and FACTORY_DEFAULTS
    /// sets several parameters back (section 10.5.6), and DMX_BLOCK_ADDRESS sets start addresses of sub-devices (E1.37-1).
    Several,
}

impl Changed {
    /// What a SET tells that changed a value, or that changed none.
    #[inline(always)]
    pub(crate) fn told(changed: bool, sub: u16, pid: u16) -> Option<Changed>
        ensures { result ≡ if changed then Some (change_of sub pid) else None }
    {
        if changed {
            Some(Changed::by_set(sub, pid))
        } else {
            None
        }
    }

    /// What a SET that changes a value is said to change.
    #[inline(always)]
    fn by_set(sub: u16, pid: u16) -> Changed
        ensures { result ≡ change_of sub pid }
    {
        if sub == SUB_DEVICE_ALL_CALL || pid == Kind::FactoryDefaults.pid() {
            Changed::Several
        } else if pid == Kind::RecordSensors.pid() {
            Changed::Value {
                sub,
                pid: Kind::SensorValue.pid(),
            }
        } else if pid == DMX_BLOCK_ADDRESS {
            // Asked last: asked before the others, it costs every SET more than this test.
            Changed::Several
        } else {
            Changed::Value { sub, pid }
        }
    }
}
