//! Values that are saved before power-off, and restored after it.

use super::{DEVICE, GET, SET, request, responder_with};
use rdm_params::{RestoreError, SaveError, Verdict};
use rdm_responder::Responder;
use std::alloc::Global;
use std::process::Abort;

/// The image of the demo fixture with one sub-device.
const IMAGE: usize = 138;

/// What a GET of the root answers.
fn shows(rt: &impl Abort, responder: &Responder, pid: u16, expected: &[u8]) {
    match responder.devices().get(0, pid, &[]) {
        Verdict::Reply(body) => assert!(rt; body.as_slice() == expected, "{pid:04X}"),
        other => assert!(rt; false, "{pid:04X} is {other:?}"),
    }
}

/// A value of the root is placed.
fn places(rt: &impl Abort, responder: &mut Responder, pid: u16, bytes: &[u8]) {
    assert!(rt; responder.place(0, pid, bytes) == Ok(()), "{pid:04X}");
}

/// A responder with this start address, this number of power cycles, a label, and a mode of the maker's, which no SET may ask for.
fn place_all(rt: &impl Abort, responder: &mut Responder, start: u8, cycles: &[u8]) {
    places(rt, responder, 0x00F0, &[0, start]);
    places(rt, responder, 0x0405, cycles);
    places(rt, responder, 0x0082, &[0x46, 0x4F, 0x48]);
    places(rt, responder, 0x0404, &[0x80]);
}

/// A list that is too short stays as it was, and of one that is longer the rest does.
#[test]
fn an_image_has_its_length(rt: HostRuntime) {
    let responder = responder_with(&rt, rt.alloc(), 1, 1);
    let mut short = [0xEE; IMAGE - 1];
    let saved = (responder.saved_len(), responder.save_into(&mut short));
    assert!(rt; saved == (IMAGE, Err(SaveError::Short)) && are_untouched(&short));
    let mut long = [0xEE; IMAGE + 1];
    let saved = responder.save_into(&mut long);
    assert!(rt; saved == Ok(IMAGE) && are_untouched(&long[IMAGE..]));
}

/// Whether bytes are those with which a list was filled.
fn are_untouched(bytes: &[u8]) -> bool {
    bytes.iter().all(|byte| *byte == 0xEE)
}

/// What the root shows then.
const RESTORED: &[(u16, &[u8])] = &[
    (0x00F0, &[0, 101]),
    (0x0405, &[0, 0, 0, 42]),
    (0x0082, &[0x46, 0x4F, 0x48]),
    (0x00E0, &[1, 2]),
    (0x0404, &[0x80]),
    (0x1000, &[1]),
];

/// The values that last are back, with one more power cycle; what identifies itself goes on, and what waits stays.
#[test]
fn what_was_saved_is_restored(rt: HostRuntime) {
    let identify = request(&rt, DEVICE, 0, SET, 0x1000, &[1]);
    let image = saved_image(&rt, rt.alloc());
    let mut restored = responder_with(&rt, rt.alloc(), 1, 1);
    assert!(rt; restored.step(identify.as_slice()).0.is_some());
    assert!(rt; restored.change(rdm_params::Change::Personality(2)).is_ok());
    let told = (restored.restore(&image), restored.waiting());
    assert!(rt; told == (Ok(()), 1));
    for (pid, expected) in RESTORED {
        shows(&rt, &restored, *pid, expected);
    }
}

/// After an update that adds a sub-device, the values of before are back.
#[test]
fn an_update_keeps_values(rt: HostRuntime) {
    let image = saved_image(&rt, rt.alloc());
    let mut updated = responder_with(&rt, rt.alloc(), 2, 1);
    places(&rt, &mut updated, 0x1000, &[1]);
    assert!(rt; updated.restore(&image) == Ok(()));
    for (pid, expected) in RESTORED {
        shows(&rt, &updated, *pid, expected);
    }
}

/// What is saved of a responder that was switched on 41 times.
fn saved_image(rt: &impl Abort, alloc: Global) -> [u8; IMAGE] {
    let mut saved = responder_with(rt, alloc, 1, 1);
    let mut image = [0; IMAGE];
    place_all(rt, &mut saved, 101, &[0, 0, 0, 41]);
    assert_eq!(rt; saved.save_into(&mut image), Ok(IMAGE));
    image
}

/// Each restart counts one more, until the count is full.
#[test]
fn a_restart_is_one_more_power_cycle(rt: HostRuntime) {
    for (before, after) in POWER_CYCLES {
        let mut responder = responder_with(&rt, rt.alloc(), 1, 1);
        restarts(&rt, &mut responder, before, after);
    }
}

/// The numbers of power cycles before a restart, and after it.
const POWER_CYCLES: &[([u8; 4], [u8; 4])] = &[
    ([0, 0, 0, 0], [0, 0, 0, 1]),
    ([0, 0, 0, 0xFF], [0, 0, 1, 0]),
    ([0xFF, 0xFF, 0xFF, 0xFE], [0xFF, 0xFF, 0xFF, 0xFF]),
    ([0xFF, 0xFF, 0xFF, 0xFF], [0xFF, 0xFF, 0xFF, 0xFF]),
];

/// A responder with the one number of power cycles is restarted, and has the other.
fn restarts(rt: &impl Abort, responder: &mut Responder, before: &[u8], after: &[u8]) {
    let mut image = [0; IMAGE];
    place_all(rt, responder, 7, before);
    let told = (responder.save_into(&mut image), responder.restore(&image));
    assert!(rt; told == (Ok(IMAGE), Ok(())));
    shows(rt, responder, 0x0405, after);
}

/// An image that is cut, altered or of another fixture is refused, and the values stay.
#[test]
fn no_other_image_is_restored(rt: HostRuntime) {
    let get = request(&rt, DEVICE, 0, GET, 0x0405, &[]);
    let image = saved_image(&rt, rt.alloc());
    let mut responder = responder_with(&rt, rt.alloc(), 1, 1);
    place_all(&rt, &mut responder, 7, &[0, 0, 0, 9]);
    refuses_fronts(&rt, &mut responder, &image);
    refuses_altered(&rt, &mut responder, &image);
    refuses_another(&rt, &mut responder, image);
    shows(&rt, &responder, 0x00F0, &[0, 7]);
    shows(&rt, &responder, 0x0405, &[0, 0, 0, 9]);
    assert!(rt; responder.step(get.as_slice()).0.is_some());
}

/// An image that is cut anywhere is refused.
fn refuses_fronts(rt: &impl Abort, responder: &mut Responder, image: &[u8; IMAGE]) {
    for cut in 0..IMAGE {
        assert!(rt; responder.restore(&image[..cut]) == Err(RestoreError::Length));
    }
}

/// An image of which one byte is another is refused: by its length, if the byte is one of the counts that say how long it is.
fn refuses_altered(rt: &impl Abort, responder: &mut Responder, image: &[u8; IMAGE]) {
    for i in 0..IMAGE {
        let mut altered = *image;
        altered[i] = altered[i].wrapping_add(1);
        let is_count = 16 <= i && i < 23;
        let wanted = if is_count {
            RestoreError::Length
        } else {
            RestoreError::Altered
        };
        assert!(rt; responder.restore(&altered) == Err(wanted), "{i}");
    }
}

/// The image of a fixture of another manufacturer, with its right checksum, is refused.
fn refuses_another(rt: &impl Abort, responder: &mut Responder, image: [u8; IMAGE]) {
    let mut other = image;
    other[1] = other[1].wrapping_add(1);
    other[IMAGE - 1] = other[IMAGE - 1].wrapping_add(1);
    assert!(rt; responder.restore(&other) == Err(RestoreError::OfAnother));
}
