//! What a dimmer can be set to (ANSI E1.37-1).

use rdm_standard_names::Table;

/// How a device identifies itself, by IDENTIFY_MODE.
pub const IDENTIFY_MODES: Table = Table(&[(0x00, "quiet"), (0xFF, "loud")]);

/// Whether a scene is programmed, by PRESET_STATUS.
pub const SCENES: Table = Table(&[
    (0x00, "not programmed"),
    (0x01, "programmed"),
    (0x02, "programmed, read only"),
]);

/// How presets and DMX512 data are merged, by PRESET_MERGEMODE.
pub const MERGE_MODES: Table = Table(&[
    (0x00, "default"),
    (0x01, "HTP"),
    (0x02, "LTP"),
    (0x03, "DMX only"),
    (0xFF, "other"),
]);

/// The base address of sub-devices whose slots aren't in one block, by DMX_BLOCK_ADDRESS.
pub const NO_BLOCK: Table = Table(&[(0xFFFF, "none")]);
