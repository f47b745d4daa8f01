//! What DMX512 slots are for.

use crate::Table;

/// The type of a slot that refines no other (table C-1).
pub const PRIMARY_SLOT: u8 = 0;

/// The types of slots (table C-1).
pub const SLOT_TYPES: Table = Table(&[
    (0x00, "primary"),
    (0x01, "fine"),
    (0x02, "timing"),
    (0x03, "speed"),
    (0x04, "control"),
    (0x05, "index"),
    (0x06, "rotation"),
    (0x07, "index rotate"),
    (0xFF, "undefined"),
]);

/// What a primary slot controls, by its label ID (table C-2).
pub const SLOT_LABELS: Table = Table(&[
    (0x0001, "intensity"),
    (0x0002, "intensity master"),
    (0x0101, "pan"),
    (0x0102, "tilt"),
    (0x0201, "color wheel"),
    (0x0202, "color sub cyan"),
    (0x0203, "color sub yellow"),
    (0x0204, "color sub magenta"),
    (0x0205, "color add red"),
    (0x0206, "color add green"),
    (0x0207, "color add blue"),
    (0x0208, "color correction"),
    (0x0209, "color scroll"),
    (0x0210, "color semaphore"),
    (0x0211, "color add amber"),
    (0x0212, "color add white"),
    (0x0213, "color add warm white"),
    (0x0214, "color add cool white"),
    (0x0215, "color sub UV"),
    (0x0216, "color hue"),
    (0x0217, "color saturation"),
    (0x0301, "static gobo wheel"),
    (0x0302, "roto gobo wheel"),
    (0x0303, "prism wheel"),
    (0x0304, "effects wheel"),
    (0x0401, "beam size iris"),
    (0x0402, "edge"),
    (0x0403, "frost"),
    (0x0404, "strobe"),
    (0x0405, "zoom"),
    (0x0406, "framing shutter"),
    (0x0407, "shutter rotate"),
    (0x0408, "douser"),
    (0x0409, "barn door"),
    (0x0501, "lamp control"),
    (0x0502, "fixture control"),
    (0x0503, "fixture speed"),
    (0x0504, "macro"),
    (0x0505, "power control"),
    (0x0506, "fan control"),
    (0x0507, "heater control"),
    (0x0508, "fountain control"),
    (0xFFFF, "undefined"),
]);
