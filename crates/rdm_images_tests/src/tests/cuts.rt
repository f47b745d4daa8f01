//! Power that fails at each byte of a save.

use super::{KEY, PAYLOAD, after_save, erased, hold_the_same, loads};
use crate::cells::{Cells, NO_POWER};
use rdm_images::{Images, ImagesError};
use std::process::Abort;

const OLDER: &[u8] = &[7, 7, 7];

const OLD: &[u8] = &[8, 9, 10, 11, 12];

/// How much higher than it was to become the byte is left at which power fails, and after how many bytes of the 104 of a save (an area
/// is erased, and an image written) the new values are there. If the last byte is written, though power fails in it, they are there.
const CUTS: &[(u8, usize)] = &[(0, 103), (1, 104), (128, 104), (255, 104)];

/// What was saved before, and what is loaded: nothing, one value, and two.
const BEFORE: &[(&[&[u8]], Option<&[u8]>)] = &[
    (&[], None),
    (&[OLD], Some(OLD)),
    (&[OLDER, OLD], Some(OLD)),
];

/// This memory, in which power fails after so many bytes.
fn with_power(cells: &Cells, left: usize, half: u8) -> Cells {
    Cells {
        left: Some(left),
        half,
        ..*cells
    }
}

/// Power is there again, for ever.
fn on_again(cells: &Cells) -> Cells {
    with_power(cells, usize::MAX, 0)
}

/// A memory in which these values were saved.
fn after_saves(payloads: &[&[u8]]) -> Cells {
    let mut cells = erased();
    for payload in payloads {
        cells = after_save(cells, KEY, payload).0;
    }
    cells
}

#[test]
fn what_is_loaded_is_the_old_values_or_the_new(rt: HostRuntime) {
    for (payloads, old) in BEFORE {
        try_cuts(&rt, &after_saves(payloads), *old);
    }
}

/// Power fails in each way in a save into a memory that has these old values.
fn try_cuts(rt: &impl Abort, before: &Cells, old: Option<&[u8]>) {
    for (half, there) in CUTS {
        try_bytes(rt, before, old, *half, *there);
    }
}

/// Power fails at each byte, and leaves it so much higher.
fn try_bytes(rt: &impl Abort, before: &Cells, old: Option<&[u8]>, half: u8, there: usize) {
    for left in 0..=104 {
        let wanted = if left < there { old } else { Some(PAYLOAD) };
        let (cells, result) = after_save(with_power(before, left, half), KEY, PAYLOAD);
        let told = (result.is_ok(), goes_on(&on_again(&cells), wanted));
        assert!(rt; told == (left == 104, true), "{left} of {half}");
    }
}

/// Whether these values are loaded, and the next save goes on from there.
fn goes_on(cells: &Cells, wanted: Option<&[u8]>) -> bool {
    let (next, result) = after_save(*cells, KEY, OLDER);
    loads(*cells, KEY, wanted) && result.is_ok() && loads(next, KEY, Some(OLDER))
}

const FAILED: Result<(), ImagesError> = Err(ImagesError::Failed(NO_POWER));

/// Whether a later save into a memory without power, and formatting it, fail and change nothing.
fn is_dead(cells: &Cells) -> bool {
    let (later, result) = after_save(*cells, KEY, OLD);
    let mut images = Images::new(*cells, KEY);
    let formatted = images.format();
    let last = images.into_memory();
    (result, formatted) == (FAILED, Err(NO_POWER))
        && hold_the_same(&later, cells)
        && hold_the_same(&last, cells)
}

#[test]
fn without_power_every_call_fails_and_changes_nothing(rt: HostRuntime) {
    for left in 0..104 {
        let (cells, result) = after_save(with_power(&erased(), left, 0), KEY, PAYLOAD);
        assert!(rt; (result, is_dead(&cells)) == (FAILED, true), "{left}");
    }
}
