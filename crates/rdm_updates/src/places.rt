//! Where the values of an image stand.

ghost use Rattle.std.specs.Prelude.{◌≡◌, ◌≤◌, ◌<◌, ◌+◌, ◌*◌, ◌^◌, length, slice_get, Some};
ghost use Rattle.rdm_saved.specs.Carrying.{word_at, said_kept, said_len, said_sensors, said_subs, root_place, sensors_place, kept_place, subs_place};
ghost use Rattle.rdm_updates.specs.SavedValues.{common_places, own_places, sensor_places, kept_places, sub_places, behind_places, places, text_place, value_place};

use rdm_saved::{
    kept_place, root_place, said_kept, said_sensors, said_subs, sensors_place, subs_place,
};

/// How many values are saved of every device, and in how many bytes.
const COMMON_VALUES: usize = 7;

const COMMON_BYTES: usize = 46;

/// How many values are saved of the root alone, but for those of its sensors and of parameters that the maker adds.
const OWN_VALUES: usize = 8;

/// How many bytes a value has of a parameter that the maker adds, with its key, and how many there are before it.
const KEPT_BYTES: usize = 37;

const KEY_BYTES: usize = 4;

/// The longest text that an image has.
const LONGEST: usize = 32;

/// Where a value stands in an image.
#[derive(Clone, Copy)]
pub(crate) struct ValuePlace {
    /// The number of the sub-device, or 0: the root.
    pub device: u16,
    /// The PID of its parameter.
    pub pid: u16,
    /// The number of the sensor or of the scene, else 0; 1 is the count of an order.
    pub index: u16,
    /// Where its bytes begin.
    pub start: usize,
    /// How many they are.
    pub len: usize,
}

/// A number of a device.
fn number_place(device: u16, pid: u16, start: usize, len: usize) -> ValuePlace
    ensures { result ≡ value_place device pid 0 start len }
{
    ValuePlace {
        device,
        pid,
        index: 0,
        start,
        len,
    }
}

/// A text whose length stands at a place.
fn text_place(image: &[u8], device: u16, pid: u16, index: u16, place: usize) -> ValuePlace
    requires { place < length image.now }
    ensures { result ≡ text_place image.now device pid index place }
{
    ValuePlace {
        device,
        pid,
        index,
        start: place + 1,
        len: usize::from(image[place]).min(LONGEST),
    }
}

/// The value with this number of those that every device has, where those of the device begin at this place.
fn common_place(image: &[u8], device: u16, place: usize, n: usize) -> ValuePlace
    requires number { n < 7 }
    requires room { place + 46 ≤ length image.now }
    ensures value { slice_get (common_places image.now device place) n ≡ Some result }
    ensures within { result.start + result.len ≤ place + 46 }
{
    match n {
        0 => number_place(device, 0x0033, place, 1),
        1 => text_place(image, device, 0x0082, 0, place + 1),
        2 => number_place(device, 0x00E0, place + 34, 1),
        3 => number_place(device, 0x00F0, place + 35, 2),
        4 => number_place(device, 0x0401, place + 37, 4),
        5 => number_place(device, 0x0402, place + 41, 4),
        _ => number_place(device, 0x0404, place + 45, 1),
    }
}

/// The value with this number of those that the root alone has, which begin at this place.
fn own_place(place: usize, n: usize) -> ValuePlace
    requires number { n < 8 }
    requires room { place < 2 ^ 32 }
    ensures value { slice_get (own_places place) n ≡ Some result }
    ensures within { result.start + result.len ≤ place + 15 }
{
    match n {
        0 => number_place(0, 0x00B0, place, 2),
        1 => number_place(0, 0x0400, place + 2, 4),
        2 => number_place(0, 0x0405, place + 6, 4),
        3 => number_place(0, 0x0500, place + 10, 1),
        4 => number_place(0, 0x0501, place + 11, 1),
        5 => number_place(0, 0x0600, place + 12, 1),
        6 => number_place(0, 0x0601, place + 13, 1),
        _ => number_place(0, 0x0602, place + 14, 1),
    }
}

/// What was recorded of a sensor.
fn sensor_place(image: &[u8], n: usize) -> ValuePlace
    requires number { n < said_sensors image.now }
    ensures value { slice_get (sensor_places (said_sensors image.now) 0 (sensors_place image.now)) n ≡ Some result }
    ensures within { result.start + result.len ≤ sensors_place image.now + 2 * said_sensors image.now }
{
    let count = said_sensors(image);
    prove!(n < count);
    ValuePlace {
        device: 0,
        pid: 0x0201,
        index: n as u16,
        start: sensors_place(image) + 2 * n,
        len: 2,
    }
}

/// The value with this number of those that are kept of parameters that the maker added.
fn kept_value_place(image: &[u8], n: usize) -> ValuePlace
    requires number { n < said_kept image.now }
    requires room { kept_place image.now + 37 * said_kept image.now ≤ length image.now }
    ensures value { slice_get (kept_places image.now (said_kept image.now) (kept_place image.now)) n ≡ Some result }
    ensures within { result.start + result.len ≤ kept_place image.now + 37 * said_kept image.now }
{
    let place = kept_place(image) + KEPT_BYTES * n;
    let pid = word_at(image, place);
    let index = word_at(image, place + 2);
    text_place(image, 0, pid, index, place + KEY_BYTES)
}

/// The value with this number of those of the sub-devices.
fn sub_place(image: &[u8], n: usize) -> ValuePlace
    requires number { n < 7 * said_subs image.now }
    requires room { subs_place image.now + 46 * said_subs image.now ≤ length image.now }
    ensures value { slice_get (sub_places image.now (said_subs image.now) 1 (subs_place image.now)) n ≡ Some result }
    ensures within { result.start + result.len ≤ subs_place image.now + 46 * said_subs image.now }
{
    let count = said_subs(image);
    let sub = n / COMMON_VALUES;
    prove!(sub < count);
    common_place(
        image,
        sub as u16 + 1,
        subs_place(image) + COMMON_BYTES * sub,
        n % COMMON_VALUES,
    )
}

/// The number of 16 bits at a place.
fn word_at(image: &[u8], place: usize) -> u16
    requires { place + 1 < length image.now }
    ensures { result ≡ word_at image.now place }
{
    256 * u16::from(image[place]) + u16::from(image[place + 1])
}

/// How many values an image has that is as long as it says.
pub(crate) fn place_count(image: &[u8]) -> usize
    ensures value { result ≡ length (places image.now) }
    ensures few { result < 2 ^ 32 }
{
    COMMON_VALUES
        + OWN_VALUES
        + said_sensors(image)
        + said_kept(image)
        + COMMON_VALUES * said_subs(image)
}

/// Where the value with this number stands.
pub(crate) fn value_place(image: &[u8], n: usize) -> ValuePlace
    requires len { length image.now ≡ said_len image.now }
    requires number { n < length (places image.now) }
    ensures value { slice_get (places image.now) n ≡ Some result }
    ensures within { result.start + result.len ≤ length image.now }
{
    let root = root_place(image);
    if n < COMMON_VALUES {
        return common_place(image, 0, root, n);
    }
    let n = n - COMMON_VALUES;
    if n < OWN_VALUES {
        return own_place(root + COMMON_BYTES, n);
    }
    value_place_behind(image, n - OWN_VALUES)
}

/// Where the value with this number of those behind stands: those of the sensors, of what the maker adds and of the sub-devices.
fn value_place_behind(image: &[u8], n: usize) -> ValuePlace
    requires len { length image.now ≡ said_len image.now }
    requires number { n < said_sensors image.now + said_kept image.now + 7 * said_subs image.now }
    ensures value { slice_get (behind_places image.now) n ≡ Some result }
    ensures within { result.start + result.len ≤ length image.now }
{
    let sensors = said_sensors(image);
    if n < sensors {
        return sensor_place(image, n);
    }
    let n = n - sensors;
    let kept = said_kept(image);
    if n < kept {
        return kept_value_place(image, n);
    }
    sub_place(image, n - kept)
}
