//! Images, and saves into a memory that loses power.

mod bytes;
mod choices;
mod cuts;
mod files;
mod firmware;

use crate::cells::{AREA, Cells};
use rdm_images::{Images, ImagesError};

/// What the values are of.
const KEY: u32 = 0x0102_0304;

/// The image of `PAYLOAD` with the counter 7: the bytes behind the check sum up to 451, and 4294967295 less 451 is FFFFFE3C.
const IMAGE: &[u8] = &[
    0xFF, 0xFF, 0xFE, 0x3C, 0x01, 0x02, 0x03, 0x04, 0x00, 0x07, 0x00, 0x1C, 1, 2, 3, 4, 5, 6, 7, 8,
    9, 10, 11, 12, 13, 14, 15, 16, 17, 18, 19, 20, 21, 22, 23, 24, 25, 26, 27, 28,
];

const PAYLOAD: &[u8] = &[
    1, 2, 3, 4, 5, 6, 7, 8, 9, 10, 11, 12, 13, 14, 15, 16, 17, 18, 19, 20, 21, 22, 23, 24, 25, 26,
    27, 28,
];

/// A memory that is erased, with power for ever.
fn erased() -> Cells {
    Cells {
        first: [0xFF; AREA],
        second: [0xFF; AREA],
        left: Some(usize::MAX),
        half: 0,
    }
}

/// That memory, with these bytes at the front of its areas.
fn with_fronts(first: &[u8], second: &[u8]) -> Cells {
    let mut cells = erased();
    put_front(&mut cells.first, first);
    put_front(&mut cells.second, second);
    cells
}

/// Puts bytes at the front of an area, if it has room for them.
fn put_front(area: &mut [u8], bytes: &[u8]) {
    if bytes.len() <= area.len() {
        area[..bytes.len()].copy_from_slice(bytes);
    }
}

/// What the memory is after these values were saved, and what came of that.
fn after_save(cells: Cells, key: u32, payload: &[u8]) -> (Cells, Result<(), ImagesError>) {
    let mut images = Images::new(cells, key);
    let saved = images.save(payload, &mut [0; AREA]);
    (images.into_memory(), saved)
}

/// Whether these are the values that are loaded, or none are.
fn loads(cells: Cells, key: u32, wanted: Option<&[u8]>) -> bool {
    Images::new(cells, key).load(&mut [0; AREA]) == Ok(wanted)
}

/// Whether two memories hold the same.
fn hold_the_same(one: &Cells, other: &Cells) -> bool {
    one.first == other.first && one.second == other.second
}
