//! From values to the image of them.

ghost use Rattle.std.specs.Prelude.{◌≡◌, ◌+◌, ◌-◌, ◌*◌, ◌^◌, ◌≤◌, ◌<◌, ◌++◌, length, sum};
ghost use Rattle.rdm_images.specs.ImageText.{image_text, IsImage};

use crate::image::HEADER_BYTES;

/// Writes the text of an image: of this key, with this counter and this payload. There must be as many bytes as it takes.
#[tactic(auto, unfolding(crate::specs::ImageText::image_text))]
pub fn encode_image(key: u32, counter: u16, payload: &[u8], out: &mut [u8])
    requires short { length payload.now < 2 ^ 16 }
    requires room { length out.old ≡ 12 + length payload.now }
    ensures text { out.new ≡ image_text key counter payload.now }
    ensures fits { IsImage key counter payload.now }
{
    let header = image_header(key, counter, payload);
    let (front, rest) = out.split_at_mut(HEADER_BYTES);
    front.copy_from_slice(&header);
    rest.copy_from_slice(payload);
}

/// The bytes of an image that stand before its payload: the check, the key, the counter and the length.
#[tactic(auto, unfolding(crate::specs::ImageText::image_text))]
pub fn image_header(key: u32, counter: u16, payload: &[u8]) -> [u8; HEADER_BYTES]
    requires short { length payload.now < 2 ^ 16 }
    ensures text { result ++ payload.now ≡ image_text key counter payload.now }
    ensures fits { IsImage key counter payload.now }
{
    let key = key.to_be_bytes();
    let counter = counter.to_be_bytes();
    let len = (payload.len() as u16).to_be_bytes();
    let check = (u32::MAX
        - (sum_of(&key) + sum_of(&counter) + sum_of(&len) + sum_of(payload))).to_be_bytes();
    [
        check[0], check[1], check[2], check[3], key[0], key[1], key[2], key[3], counter[0],
        counter[1], len[0], len[1],
    ]
}

/// The sum of the bytes.
pub(crate) fn sum_of(bytes: &[u8]) -> u32
    requires { length bytes.now < 2 ^ 16 }
    ensures value { result ≡ sum bytes.now }
    ensures small { result ≤ 255 * length bytes.now }
{
    added(bytes)
}

fn added(bytes: &[u8]) -> u32
    requires { length bytes.now < 2 ^ 16 }
    ensures { result ≡ sum bytes.now }
{
    bytes.iter().map(|byte| u32::from(*byte)).sum()
}
