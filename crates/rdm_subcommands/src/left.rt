//! The values of a file that another version of a fixture has saved, and that this one doesn't take over.

use rdm_host::host::Host;
use rdm_host::name::Name;
use rdm_table::parameter_name;
use rdm_updates::{LeftValue, left};
use std::fmt;

/// DEVICE_POWER_CYCLES, which counts on when the values are restored (E1.20 section 10.8.6).
const POWER_CYCLES: u16 = 0x0405;

/// A value of the file of this name that the fixture didn't take over.
#[derive(Drop)]
struct Notice<'a> {
    name: &'a str,
    device: u16,
    pid: u16,
    index: u16,
}

/// Says on standard error which values of an older image a newer one doesn't have, one a line.
pub(crate) fn tell_left<H: Host>(rt: H, name: &str, old: &[u8], new: &[u8]) {
    let mut from = 0;
    for _ in 0..old.len() {
        let Some(found) = left(old, new, from) else {
            return;
        };
        from = found.number.saturating_add(1);
        tell(rt, name, &found);
    }
}

/// Says on standard error that this value isn't taken over, unless it counts on.
fn tell<H: Host>(rt: H, name: &str, found: &LeftValue<'_>) {
    let value = found.value;
    if value.pid == POWER_CYCLES {
        return;
    }
    let notice = Notice {
        name,
        device: value.device,
        pid: value.pid,
        index: value.index,
    };
    // Nobody is left to be told if this can't be written.
    let _ = eprintln!(rt; "{notice}");
}

impl fmt::Display for Notice<'_> {
    fn fmt<W: fmt::Write>(&self, f: &mut fmt::Formatter<W>) -> fmt::Result {
        write!(f, "{}: this version doesn't take over ", Name(self.name))?;
        match parameter_name(self.pid) {
            Some(name) => write!(f, "{name}")?,
            None => write!(f, "{:04X}", self.pid)?,
        }
        if self.index != 0 {
            write!(f, " {}", self.index)?;
        }
        match self.device {
            0 => Ok(()),
            device => write!(f, " of sub-device {device}"),
        }
    }
}
