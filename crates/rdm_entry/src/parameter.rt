//! Parameters by their names, in upper or lower case.

ghost use Rattle.std.specs.Prelude.{◌≡◌, ◌≤◌, length, map};
ghost use Rattle.rdm_params.specs.Table.Names.{pid_named};
ghost use Rattle.rdm_entry.specs.Names.{as_printed, parameter_named};

use rdm_frame::Load;
use rdm_params::{parameter_name, pid_named};

/// The PID of the parameter with this name, in upper or lower case, as `dmx_start_address`, with hyphens or underlines between its
/// parts.
#[tactic(auto, unfolding(crate::specs::Names::parameter_named))]
pub fn parameter_named(word: &str) -> Option<u16>
    ensures { result ≡ parameter_named word.now }
{
    let word = word.as_bytes();
    if word.len() > 255 {
        return None;
    }
    pid_named(printed(word).as_slice())
}

/// A word as the standard prints it.
fn printed(word: &[u8]) -> Load
    requires { length word.now ≤ 255 }
    ensures { result ≡ map as_printed word.now }
{
    let mut name = Load::new();
    for byte in word {
        name.append(&[as_printed(*byte)]);
    }
    name
}

/// A letter in upper case, and an underline for a hyphen.
fn as_printed(byte: u8) -> u8
    ensures { result ≡ as_printed byte }
{
    match byte {
        b'-' => b'_',
        _ => byte.to_ascii_uppercase(),
    }
}

/// The only parameter whose name has this word in it, as `START_ADDRESS` is in `DMX_START_ADDRESS`. If there are several, or
/// none, it is `None`.
pub fn nearest_parameter(word: &str) -> Option<&'static str> {
    let word = word.as_bytes();
    if word.len() > 255 {
        return None;
    }
    let part = printed(word);
    let mut nearest = None;
    for pid in 0..=u16::MAX {
        if let Some(name) = parameter_name(pid) {
            if has_part(name.as_bytes(), part.as_slice()) {
                if nearest.is_some() {
                    return None;
                }
                nearest = Some(name);
            }
        }
    }
    nearest
}

/// Whether a name has this part.
fn has_part(name: &[u8], part: &[u8]) -> bool {
    !part.is_empty() && name.windows(part.len()).any(|window| window == part)
}
