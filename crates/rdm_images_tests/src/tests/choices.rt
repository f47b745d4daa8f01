//! Which of two images is loaded, and where the next one goes.

use super::{
    IMAGE, KEY, PAYLOAD, after_save, erased, hold_the_same, loads, put_front, with_fronts,
};
use crate::cells::{AREA, Cells};
use rdm_images::{Images, ImagesError, Side, encode_image};

/// The counters of the images in the two areas, which is loaded, and the counter of the one that is saved next.
const COUNTERS: &[(u16, u16, Side, u16)] = &[
    (0, 1, Side::Second, 2),
    (1, 0, Side::First, 2),
    (65534, 65535, Side::Second, 0),
    (65535, 0, Side::Second, 1),
    (0, 65535, Side::First, 1),
    // No save leaves these: none is the next after the other.
    (5, 5, Side::First, 6),
    (7, 300, Side::First, 8),
    (300, 7, Side::First, 301),
];

const FIRST: &[u8] = &[1, 1];

const SECOND: &[u8] = &[2, 2];

const NEW: &[u8] = &[3, 3];

fn image(counter: u16, payload: &[u8]) -> [u8; 14] {
    let mut bytes = [0; 14];
    if payload.len() == 2 {
        encode_image(KEY, counter, payload, &mut bytes);
    }
    bytes
}

/// A memory with images of these counters in its areas.
fn with_images(first: u16, second: u16) -> Cells {
    with_fronts(&image(first, FIRST), &image(second, SECOND))
}

/// What that memory holds when the next image was saved into the area that isn't loaded.
fn with_next(first: u16, second: u16, newest: Side, next: u16) -> Cells {
    match newest {
        Side::First => with_fronts(&image(first, FIRST), &image(next, NEW)),
        Side::Second => with_fronts(&image(next, NEW), &image(second, SECOND)),
    }
}

/// Whether the newest image is loaded.
fn loads_newest(cells: Cells, newest: Side) -> bool {
    let old = match newest {
        Side::First => FIRST,
        Side::Second => SECOND,
    };
    loads(cells, KEY, Some(old))
}

/// Whether values are saved, and the memory then holds the same as another, of which they are loaded.
fn saves_as(cells: Cells, wanted: &Cells) -> bool {
    let (saved, result) = after_save(cells, KEY, NEW);
    result.is_ok() && hold_the_same(&saved, wanted) && loads(saved, KEY, Some(NEW))
}

#[test]
fn the_next_counter_is_newer(rt: HostRuntime) {
    for (first, second, newest, next) in COUNTERS {
        let cells = with_images(*first, *second);
        let wanted = with_next(*first, *second, *newest, *next);
        let told = (loads_newest(cells, *newest), saves_as(cells, &wanted));
        assert!(rt; told == (true, true), "{first}, {second}");
    }
}

/// The first image in two areas that are erased: its counter is 0, so its check is 7 more.
fn first_image() -> Cells {
    let mut wanted = with_fronts(IMAGE, &[]);
    wanted.first[3] = 0x43;
    wanted.first[9] = 0;
    wanted
}

#[test]
fn the_first_save_is_into_the_first_area(rt: HostRuntime) {
    let (cells, result) = after_save(erased(), KEY, PAYLOAD);
    let is_there = hold_the_same(&cells, &first_image()) && loads(cells, KEY, Some(PAYLOAD));
    assert!(rt; (loads(erased(), KEY, None), result, is_there) == (true, Ok(()), true));
}

/// How many bytes the payload and the buffer have, and what comes of a save. An area has 64 bytes.
const SIZES: &[(usize, usize, Result<(), ImagesError>)] = &[
    (0, 64, Ok(())),
    (52, 64, Ok(())),
    (53, 64, Err(ImagesError::TooLong)),
    (64, 64, Err(ImagesError::TooLong)),
    (100, 64, Err(ImagesError::TooLong)),
    (52, 63, Err(ImagesError::Buffer)),
    (52, 65, Err(ImagesError::Buffer)),
    (53, 65, Err(ImagesError::Buffer)),
    (0, 0, Err(ImagesError::Buffer)),
];

/// What the memory is after so many bytes were saved by a buffer of this size, and what came of that.
fn after_save_of(
    old: Cells,
    payload: &[u8],
    buffer: &mut [u8],
) -> (Cells, Result<(), ImagesError>) {
    let mut images = Images::new(old, KEY);
    let saved = images.save(payload, buffer);
    (images.into_memory(), saved)
}

/// What comes of a save of values by a buffer, if the values are there afterwards, or what was there before.
fn outcome(values: &[u8], buffer: &mut [u8]) -> Option<Result<(), ImagesError>> {
    let (old, _) = after_save(erased(), KEY, PAYLOAD);
    let (cells, result) = after_save_of(old, values, buffer);
    let holds = match result {
        Ok(()) => loads(cells, KEY, Some(values)),
        Err(_) => hold_the_same(&cells, &old),
    };
    holds.then_some(result)
}

/// The same for so many bytes and a buffer of this size.
fn outcome_of(length: usize, size: usize) -> Option<Result<(), ImagesError>> {
    let payload = [9; 100];
    let mut buffer = [0; 100];
    outcome(payload.get(..length)?, buffer.get_mut(..size)?)
}

#[test]
fn what_is_too_long_changes_nothing(rt: HostRuntime) {
    for (length, size, wanted) in SIZES {
        let is_told = outcome_of(*length, *size) == Some(*wanted);
        assert!(rt; is_told, "{length} in {size}");
    }
}

/// How often values of a key were saved, before those of another are saved once; and whether the first are still there then. Each
/// key counts the images of the other as none, so it begins in the first area.
const OTHERS: &[(u32, bool)] = &[(0, false), (1, false), (2, true), (3, true)];

/// A memory in which values were saved so often.
fn after_saves(times: u32) -> Cells {
    let mut cells = erased();
    for _ in 0..times {
        cells = after_save(cells, KEY, FIRST).0;
    }
    cells
}

#[test]
fn values_of_another_key_are_none(rt: HostRuntime) {
    for (times, kept) in OTHERS {
        let before = after_saves(*times);
        let (cells, result) = after_save(before, KEY + 1, SECOND);
        let others = (
            loads(before, KEY + 1, None),
            loads(cells, KEY + 1, Some(SECOND)),
        );
        let is_kept = loads(cells, KEY, kept.then_some(FIRST));
        assert!(rt;
            (others, result, is_kept) == ((true, true), Ok(()), true),
            "{times}"
        );
    }
}

/// A memory in whose areas anything stands.
fn rubbish() -> Cells {
    Cells {
        first: [0x5A; AREA],
        second: [0; AREA],
        left: Some(usize::MAX),
        half: 0,
    }
}

/// Whether a memory is erased by formatting it, and nothing is loaded of it then.
fn is_formatted(cells: Cells) -> bool {
    let mut images = Images::new(cells, KEY);
    let result = images.format();
    let cells = images.into_memory();
    result.is_ok() && hold_the_same(&cells, &erased()) && loads(cells, KEY, None)
}

#[test]
fn nothing_is_loaded_from_a_formatted_memory(rt: HostRuntime) {
    let (saved, _) = after_save(erased(), KEY, PAYLOAD);
    let told = (
        is_formatted(rubbish()),
        is_formatted(erased()),
        is_formatted(saved),
    );
    assert!(rt; told == (true, true, true));
}
