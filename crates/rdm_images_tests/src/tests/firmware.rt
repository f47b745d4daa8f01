//! A firmware that keeps one value.

use super::{KEY, erased};
use crate::cells::{AREA, Cells, NO_POWER};
use rdm_images::{Images, ImagesError};

/// The start address of a fixture whose memory holds nothing.
const FACTORY: u16 = 1;

/// What a fixture does from one power-on to the next: its start address at first, the memory afterwards, and what came of the save of the
/// next address.
fn live(memory: Cells) -> Result<(u16, Cells, Result<(), ImagesError>), ImagesError> {
    let mut images = Images::new(memory, KEY);
    let mut buffer = [0; AREA];
    // At power-on: what was saved last. A memory that holds nothing is formatted, by which nothing is lost.
    let saved = match images.load(&mut buffer)? {
        Some([high, low]) => Some(u16::from_be_bytes([*high, *low])),
        _ => None,
    };
    if saved.is_none() {
        images.format()?;
    }
    let address = saved.unwrap_or(FACTORY);
    // Whenever a value has changed, and a moment has passed: all of them, as one payload.
    let result = images.save(&address.wrapping_add(1).to_be_bytes(), &mut buffer);
    Ok((address, images.into_memory(), result))
}

/// Power-ons, one after another: how many bytes can be erased or written until power fails, the address at first, and what comes of the
/// save. An area is erased and 14 bytes are written: 78, of which the last is there though power fails in it.
const LIVES: &[(usize, u16, Result<(), ImagesError>)] = &[
    (usize::MAX, 1, Ok(())),
    (usize::MAX, 2, Ok(())),
    (0, 3, NOT_SAVED),
    (30, 3, NOT_SAVED),
    (70, 3, NOT_SAVED),
    (78, 3, Ok(())),
    (77, 4, NOT_SAVED),
    (usize::MAX, 5, Ok(())),
];

const NOT_SAVED: Result<(), ImagesError> = Err(ImagesError::Failed(NO_POWER));

#[test]
fn a_firmware_keeps_its_values(rt: HostRuntime) {
    let mut cells = erased();
    cells.first = [0x5A; AREA];
    for (left, address, wanted) in LIVES {
        cells.left = Some(*left);
        let (found, after, result) = live(cells).expect(&rt, "a load");
        assert!(rt; (found, result) == (*address, *wanted), "{left}");
        cells = after;
    }
}
