//! Two images of saved values in two areas of the firmware's memory, as C asks of them. C reads, erases and writes the areas itself: these
//! calls tell it which image is the newest, which area is erased next, and which bytes are written there.

ghost use Rattle.std.specs.Prelude.{◌≡◌, ◌≢◌, ◌↔◌, ◌++◌, nat_le, length, if◌then◌else◌, is_some, true, List, ℕ, MatchOption};
ghost use Rattle.rdm_images.specs.declared.decoding.ImageError.{ImageError as TheError};
ghost use Rattle.rdm_images.specs.declared.memory.Side.{Side as TheSide};
ghost use Rattle.rdm_images.specs.Areas.{newest, next_side, next_counter, said_by};
ghost use Rattle.rdm_images.specs.ImageText.{image_text};
ghost use Rattle.rdm_images.specs.Reading.{held, said, IsFirstFault};
ghost use Rattle.rdm_c.specs.Images.{image_in, number_of, of_image_error, AreRead, IsNext};
ghost use Rattle.rdm_c.specs.Statuses.{code_of};

use crate::image::{ImageNumbers, number_of, status_of};
use crate::status::Status;
use rdm_images::{
    HEADER_BYTES, MOST_PAYLOAD, decode_image, image_header, newest_image, next_image,
};

/// Tells what an area holds: the image of this key at the front of its bytes, if there is one. What stands behind it doesn't count.
///
/// If there is none, the result says which test the bytes fail: they are cut, an altered byte is among them, or the image is of another
/// key, the first of these. `image` tells that there is none then.
#[unsafe(no_mangle)]
pub extern "C" fn felosumay_images_read_nonnull(
    key: u32,
    bytes: &[u8],
    image: &mut ImageNumbers,
) -> u8
    ensures held { image_in image.new ≡ said (held key bytes.now) }
    ensures done { (result ≡ code_of Status.Done) ↔ (is_some (image_in image.new) ≡ true) }
    ensures fault { (e : TheError) → (result ≡ code_of (of_image_error e)) ↔ IsFirstFault e key bytes.now }
{
    let read = decode_image(key, bytes);
    *image = ImageNumbers::of(read.ok());
    match read {
        Ok(_) => Status::Done.code(),
        Err(error) => status_of(error).code(),
    }
}

/// Tells which of the two areas holds the newest image: 0 is the first area, and 1 the second. If neither holds one, nothing is written.
#[unsafe(no_mangle)]
pub extern "C" fn felosumay_images_newest(
    first: &ImageNumbers,
    second: &ImageNumbers,
    area: &mut u8,
) -> u8
    ensures told { MatchOption (said_by (image_in first.now) (image_in second.now)) (result ≡ code_of Status.NoImage)
        (λ found. (result ≡ code_of Status.Done) × (area.new ≡ number_of found.0)) }
    // So it is the newest image of the areas that were read.
    ensures newest { (key : ℕ) (areas : TheSide → List ℕ) → AreRead key areas first.now second.now →
        MatchOption (newest key areas) (result ≡ code_of Status.NoImage)
        (λ found. (result ≡ code_of Status.Done) × (area.new ≡ number_of found.0)) }
    ensures same { result ≢ code_of Status.Done → area.new ≡ area.old }
{
    let Some((side, _)) = newest_image(first.image(), second.image()) else {
        return Status::NoImage.code();
    };
    *area = number_of(side);
    Status::Done.code()
}

/// Tells which area is to be erased for the next image, that of this payload, and which bytes are to be written there in front of the
/// payload. If the payload is longer than 65535 bytes, nothing is written.
#[unsafe(no_mangle)]
pub extern "C" fn felosumay_images_next_nonnull(
    key: u32,
    first: &ImageNumbers,
    second: &ImageNumbers,
    payload: &[u8],
    header: &mut [u8; HEADER_BYTES],
    area: &mut u8,
) -> u8
    ensures told { result ≡ code_of (if nat_le (length payload.now) 65535 then Status.Done else Status.TooLong) }
    ensures area { result ≡ code_of Status.Done →
        area.new ≡ number_of (next_side (said_by (image_in first.now) (image_in second.now))) }
    ensures text { result ≡ code_of Status.Done → header.new ++ payload.now
        ≡ image_text key (next_counter (said_by (image_in first.now) (image_in second.now))) payload.now }
    // So it is the next image of the areas that were read: rdm_images::interrupted_save_is_whole says what is loaded if power fails.
    ensures next { (areas : TheSide → List ℕ) → AreRead key areas first.now second.now → result ≡ code_of Status.Done →
        IsNext key payload.now areas area.new header.new }
    ensures same { result ≢ code_of Status.Done → (header.new ≡ header.old) × (area.new ≡ area.old) }
{
    if payload.len() > MOST_PAYLOAD {
        return Status::TooLong.code();
    }
    let next = next_image(newest_image(first.image(), second.image()));
    *header = image_header(key, next.counter, payload);
    *area = number_of(next.side);
    Status::Done.code()
}
