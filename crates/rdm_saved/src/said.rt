//! What an image says of the fixture that it was saved by.
//!
//! Each call takes any bytes: a byte that isn't there is 0. An image that is accepted has as many bytes as `said_len` tells, so its values
//! stand where the others tell.

ghost use Rattle.std.specs.Prelude.{◌≡◌, ◌≤◌, ◌+◌, ◌*◌, ◌<◌, length, slice_index, drop};
ghost use Rattle.rdm_profile.specs.Values.{word_slots, front_word};
ghost use Rattle.rdm_saved.specs.Carrying.{word_at, said_subs, said_sensors, said_own, said_without, said_kept, said_len, root_place, sensors_place, kept_place, subs_place, has_piece, is_omitted, knows};
ghost use Rattle.rdm_saved.specs.SavedText.{own_text};

use crate::profile_text::own_text;
use crate::saving::{COMMON_BYTES, KEPT_BYTES, OWN_BYTES};
use rdm_device::ParameterDef;

/// How many bytes an image has of what every profile says.
const HEAD_BYTES: usize = 23;

/// How many bytes say a parameter that the maker adds, and how many a PID that is left out.
const DEF_BYTES: usize = 4;

const PID_BYTES: usize = 2;

/// How many bytes an image says that it has.
pub fn said_len(image: &[u8]) -> usize
    ensures { result ≡ said_len image.now }
{
    subs_place(image) + COMMON_BYTES * said_subs(image) + 4
}

/// How many sub-devices it has values of.
pub fn said_subs(image: &[u8]) -> usize
    ensures value { result ≡ said_subs image.now }
    ensures few { result < 65536 }
{
    word_at(image, 16)
}

/// How many sensors it has values of.
pub fn said_sensors(image: &[u8]) -> usize
    ensures value { result ≡ said_sensors image.now }
    ensures few { result < 256 }
{
    usize::from(byte_at(image, 18))
}

/// How many parameters its maker added.
fn said_own(image: &[u8]) -> usize
    ensures value { result ≡ said_own image.now }
    ensures few { result < 256 }
{
    usize::from(byte_at(image, 19))
}

/// How many PIDs were left out.
fn said_without(image: &[u8]) -> usize
    ensures value { result ≡ said_without image.now }
    ensures few { result < 256 }
{
    usize::from(byte_at(image, 20))
}

/// How many values were kept of the parameters that its maker added.
pub fn said_kept(image: &[u8]) -> usize
    ensures value { result ≡ said_kept image.now }
    ensures few { result < 65536 }
{
    word_at(image, 21)
}

/// Where the values of the root begin.
pub fn root_place(image: &[u8]) -> usize
    ensures value { result ≡ root_place image.now }
    ensures few { result < 65536 }
{
    HEAD_BYTES + DEF_BYTES * said_own(image) + PID_BYTES * said_without(image)
}

/// Where those of its sensors begin.
pub fn sensors_place(image: &[u8]) -> usize
    ensures value { result ≡ sensors_place image.now }
    ensures few { result < 131072 }
{
    root_place(image) + COMMON_BYTES + OWN_BYTES
}

/// Where those of the parameters that its maker added begin.
pub fn kept_place(image: &[u8]) -> usize
    ensures value { result ≡ kept_place image.now }
    ensures few { result < 262144 }
{
    sensors_place(image) + 2 * said_sensors(image)
}

/// Where those of the sub-devices begin.
pub fn subs_place(image: &[u8]) -> usize
    ensures value { result ≡ subs_place image.now }
    ensures few { result < 4194304 }
{
    kept_place(image) + KEPT_BYTES * said_kept(image)
}

/// Whether its profile left this PID out.
pub fn is_omitted(image: &[u8], pid: u16) -> bool
    requires { root_place image.now ≤ length image.now }
    ensures { result ≡ is_omitted image.now pid }
{
    let place = HEAD_BYTES + DEF_BYTES * said_own(image);
    has_piece(
        PID_BYTES,
        said_without(image),
        &image[place..],
        &pid.to_be_bytes(),
    )
}

/// Whether its maker added this parameter, with data of the same type and size.
pub fn knows(image: &[u8], def: &ParameterDef) -> bool
    requires { root_place image.now ≤ length image.now }
    ensures { result ≡ knows image.now def.now }
{
    has_piece(
        DEF_BYTES,
        said_own(image),
        &image[HEAD_BYTES..],
        &own_text(def),
    )
}

/// Whether one of the first pieces of this size, of which there are so many, is this one.
#[tactic(auto, using(crate::proofs::Pieces::piece_here, std::proofs::lemmas::Grind::common_steps))]
fn has_piece(size: usize, count: usize, bytes: &[u8], piece: &[u8]) -> bool
    requires { size * count ≤ length bytes.now }
    ensures { result ≡ has_piece size count bytes.now piece.now }
{
    for i in 0..count {
        if &bytes[size * i..size * i + size] == piece {
            return true;
        }
    }
    false
}

/// The number of 16 bits at a place.
fn word_at(image: &[u8], place: usize) -> usize
    requires { place < 64 }
    ensures value { result ≡ word_at image.now place }
    ensures few { result < 65536 }
{
    256 * usize::from(byte_at(image, place)) + usize::from(byte_at(image, place + 1))
}

/// The byte at a place, or 0 where there is none.
fn byte_at(image: &[u8], place: usize) -> u8
    ensures { result ≡ slice_index image.now place }
{
    match image.get(place) {
        Some(byte) => *byte,
        None => 0,
    }
}
