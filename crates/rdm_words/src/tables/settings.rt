//! What a device can be set to.

use rdm_standard_names::Table;

/// What PRESET_PLAYBACK plays, if it isn't a scene (table A-7).
pub const PRESETS: Table = Table(&[(0x0000, "off"), (0xFFFF, "all")]);

/// The states of a lamp (table A-8).
pub const LAMP_STATES: Table = Table(&[
    (0x00, "off"),
    (0x01, "on"),
    (0x02, "strike"),
    (0x03, "standby"),
    (0x04, "not present"),
    (0x7F, "error"),
]);

/// When a lamp is switched on (table A-9).
pub const LAMP_ON_MODES: Table = Table(&[
    (0x00, "off"),
    (0x01, "DMX"),
    (0x02, "on"),
    (0x03, "after cal"),
]);

/// Which self test, if it isn't one of the device's own (table A-10).
pub const SELF_TESTS: Table = Table(&[(0x00, "off"), (0xFF, "all")]);

/// The power states of a device (table A-11).
pub const POWER_STATES: Table = Table(&[
    (0x00, "full off"),
    (0x01, "shutdown"),
    (0x02, "standby"),
    (0xFF, "normal"),
]);

/// Whether a display is inverted (section 10.9).
pub const DISPLAY_INVERSIONS: Table = Table(&[(0x00, "off"), (0x01, "on"), (0x02, "auto")]);

/// Whether something is so.
pub const TRUTHS: Table = Table(&[(0x00, "no"), (0x01, "yes")]);

/// Whether something is on.
pub const SWITCHES: Table = Table(&[(0x00, "off"), (0x01, "on")]);

/// How RESET_DEVICE resets a device (section 10.11).
pub const RESETS: Table = Table(&[(0x01, "warm"), (0xFF, "cold")]);
