//! From bytes to the image that stands at their front.

ghost use Rattle.std.specs.Prelude.{◌≡◌, ◌↔◌, ◌≤◌, ◌+◌, length, List, ℕ, IfOk, IfErr, OnOk, ◌++◌, take};
ghost use Rattle.std.specs.Result.{result_ok};
ghost use Rattle.rdm_images.specs.ImageText.{image_text, IsImage};
ghost use Rattle.rdm_images.specs.Reading.{image_of, said, held, payload_at, PassesAll, IsFirstFault};

use crate::encoding::sum_of;
use crate::image::{HEADER_BYTES, Image};
use thiserror::Error;

/// Why no image stands at the front of these bytes: the first of three tests, in this order, that they fail.
#[derive(Clone, Copy, Debug, PartialEq, Eq, Error)]
pub enum ImageError {
    /// There are fewer bytes than a header has, or than the header says.
    #[error("the image is truncated")]
    Cut,
    /// The check and the sum of the bytes behind it aren't 4294967295 together: a byte is altered, or there is no image.
    #[error("the image is altered")]
    Altered,
    /// It is an image, but of another key.
    #[error("the image is of another key")]
    OfAnother,
}

/// The image of this key at the front of these bytes. What stands behind it doesn't count.
///
/// It is `Ok` exactly where the bytes begin with the text of an image of this key. Else the error names the first of the three
/// tests that fails.
pub fn decode_image(key: u32, bytes: &[u8]) -> Result<Image, ImageError>
    // What is read is spelled so.
    ensures ok { IfOk result (λ image. take (12 + image.length) bytes.now ≡ image_text key image.counter (payload_at bytes.now)) }
    // What is spelled so is read.
    ensures only { (counter : ℕ) (payload rest : List ℕ) → IsImage key counter payload
        → bytes.now ≡ image_text key counter payload ++ rest → result ≡ Ok (record { counter = counter; length = length payload }) }
    // The one image, as the areas of a memory cite it.
    ensures held { result_ok result ≡ said (held key bytes.now) }
    // Each error comes exactly when the tests before its own pass, and its own fails.
    ensures fault { (e : ImageError) → (result ≡ Err e) ↔ IsFirstFault e key bytes.now }
{
    test(key, bytes)?;
    Ok(read(bytes))
}

/// The three tests, in their order.
fn test(key: u32, bytes: &[u8]) -> Result<(), ImageError>
    ensures ok { OnOk result (PassesAll key bytes.now) }
    ensures err { IfErr result (λ e. IsFirstFault e key bytes.now) }
{
    if bytes.len() < HEADER_BYTES {
        return Err(ImageError::Cut);
    }
    let end = HEADER_BYTES + read(bytes).length as usize;
    if bytes.len() < end {
        return Err(ImageError::Cut);
    }
    let check = u32::from_be_bytes([bytes[0], bytes[1], bytes[2], bytes[3]]);
    let sum = sum_of(&bytes[4..HEADER_BYTES]) + sum_of(&bytes[HEADER_BYTES..end]);
    if sum != u32::MAX - check {
        return Err(ImageError::Altered);
    }
    if u32::from_be_bytes([bytes[4], bytes[5], bytes[6], bytes[7]]) != key {
        return Err(ImageError::OfAnother);
    }
    Ok(())
}

/// What the header says.
fn read(bytes: &[u8]) -> Image
    requires { 12 ≤ length bytes.now }
    ensures { result ≡ image_of bytes.now }
{
    Image {
        counter: u16::from_be_bytes([bytes[8], bytes[9]]),
        length: u16::from_be_bytes([bytes[10], bytes[11]]),
    }
}
