//! Images that are cut, altered, or of another key.

use super::{IMAGE, KEY, PAYLOAD, erased, put_front};
use crate::cells::AREA;
use rdm_images::{Image, ImageError, ImagesError, MemoryFault, decode_image, encode_image};
use std::alloc::{AllocError, Global};
use std::process::Abort;

const WHOLE: Image = Image {
    counter: 7,
    length: 28,
};

#[test]
fn an_image_is_written_and_read(rt: HostRuntime) {
    let mut bytes = [0; 40];
    encode_image(KEY, 7, PAYLOAD, &mut bytes);
    let told = (bytes.as_slice(), decode_image(KEY, IMAGE));
    assert!(rt; told == (IMAGE, Ok(WHOLE)));
}

#[test]
fn a_cut_image_is_none(rt: HostRuntime) {
    for count in 0..40 {
        let front = IMAGE.get(..count).unwrap_or(IMAGE);
        assert!(rt;
            decode_image(KEY, front) == Err(ImageError::Cut),
            "{count} bytes"
        );
    }
}

/// Each altered byte is altered by an exclusive or with these.
const ALTERINGS: &[u8] = &[1, 128, 255];

const ALTERED: &[ImageError] = &[ImageError::Altered; 3];

const CUT: &[ImageError] = &[ImageError::Cut; 3];

/// How many bytes are looked at, and why there is no image where one of these slots is altered, from one to below another.
type Slots = (usize, usize, usize, &'static [ImageError]);

/// With another length it asks for more bytes than there are; but with one byte more there are enough in an area of 64 bytes.
const SLOTS: &[Slots] = &[
    (40, 0, 10, ALTERED),
    (40, 10, 12, CUT),
    (40, 12, 40, ALTERED),
    (64, 0, 10, ALTERED),
    (64, 10, 11, CUT),
    (
        64,
        11,
        12,
        &[ImageError::Altered, ImageError::Cut, ImageError::Cut],
    ),
    (64, 12, 40, ALTERED),
];

#[test]
fn an_image_with_an_altered_byte_is_none(rt: HostRuntime) {
    for row in SLOTS {
        try_slots(&rt, row);
    }
}

fn try_slots(rt: &impl Abort, row: &Slots) {
    let (count, from, to, errors) = *row;
    for slot in from..to {
        try_slot(rt, count, slot, errors);
    }
}

fn try_slot(rt: &impl Abort, count: usize, slot: usize, errors: &[ImageError]) {
    for (x, error) in ALTERINGS.iter().zip(errors) {
        let told = error_of(count, slot, *x);
        assert!(rt; told == Some(*error), "slot {slot} with {x}");
    }
}

/// Why so many bytes are no image, where one slot is altered.
fn error_of(count: usize, slot: usize, x: u8) -> Option<ImageError> {
    let mut bytes = erased().first;
    put_front(&mut bytes, IMAGE);
    let byte = bytes.get_mut(slot)?;
    *byte ^= x;
    decode_image(KEY, bytes.get(..count)?).err()
}

/// A key that is looked for, and what comes of it. The second has bytes of the same sum.
const KEYS: &[(u32, Result<Image, ImageError>)] = &[
    (0x0102_0304, Ok(WHOLE)),
    (0x0401_0203, Err(ImageError::OfAnother)),
    (0, Err(ImageError::OfAnother)),
    (0xFFFF_FFFF, Err(ImageError::OfAnother)),
];

#[test]
fn an_image_of_another_key_is_none(rt: HostRuntime) {
    let mut area = [0xFF; AREA];
    put_front(&mut area, IMAGE);
    for (key, found) in KEYS {
        let told = (decode_image(*key, IMAGE), decode_image(*key, &area));
        assert!(rt; told == (*found, *found), "{key}");
    }
}

/// The words for why there is no image, and for why nothing was saved.
const WORDS: &str = "the image is truncated
the image is altered
the image is of another key
the buffer isn't of the size of an area
the values are longer than an area
the memory failed: 5";

/// What errors print, in this order.
fn printed(alloc: Global) -> Result<String, AllocError> {
    format!(in alloc;
        "{}\n{}\n{}\n{}\n{}\n{}",
        ImageError::Cut,
        ImageError::Altered,
        ImageError::OfAnother,
        ImagesError::Buffer,
        ImagesError::TooLong,
        ImagesError::Failed(MemoryFault { code: 5 })
    )
}

#[test]
fn errors_say_what_is_wrong(rt: HostRuntime) {
    let printed = printed(rt.alloc()).expect(&rt, "memory");
    assert!(rt; printed.as_str() == WORDS);
}
