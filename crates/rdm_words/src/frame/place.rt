//! Where in a device.

ghost use Rattle.std.specs.Prelude.{◌≡◌, ◌++◌, OnOk, string_bytes};
ghost use Rattle.rdm_words.specs.HeaderWords.{place_words};

use rdm_frame::standard::{ROOT_DEVICE, SUB_DEVICE_ALL_CALL};
use std::alloc::AllocError;
use std::fmt::Write;

/// The root, a sub-device, or all of them (E1.20 section 6.2.9).
#[tactic(auto, unfolding(crate::specs::HeaderWords::place_words))]
pub(crate) fn put_place(text: &mut String, sub: u16) -> Result<(), AllocError>
    ensures { OnOk result (string_bytes text.new ≡ string_bytes text.old ++ place_words sub) }
{
    match sub {
        ROOT_DEVICE => text.push_str("root"),
        SUB_DEVICE_ALL_CALL => text.push_str("all sub-devices"),
        _ => write!(text, "sub-device {sub}"),
    }
}
