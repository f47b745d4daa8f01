//! What DEVICE_INFO tells (E1.20 section 10.5.1).

ghost use Rattle.std.specs.Prelude.{◌≡◌, ◌+◌, ◌≤◌, length};
ghost use Rattle.rdm_survey.specs.DeviceInfos.{address_in, device_info_in, long_at, word_at};

/// What a fixture answers to DEVICE_INFO (E1.20 section 10.5.1), without the version of the protocol.
#[derive(Clone, Copy, Debug, PartialEq, Eq)]
pub struct DeviceInfo {
    /// The device model ID, which its manufacturer gives.
    pub model_id: u16,
    /// The product category (table A-5).
    pub category: u16,
    /// The software version ID, which its manufacturer gives.
    pub software_id: u32,
    /// How many slots its root takes.
    pub footprint: u16,
    /// The number of its personality, from 1.
    pub personality: u8,
    /// How many personalities it has.
    pub personalities: u8,
    /// Its DMX512 start address, or `None` for 0xFFFF: it has none.
    pub address: Option<u16>,
    /// How many sub-devices it has.
    pub sub_devices: u16,
    /// How many sensors it has.
    pub sensors: u8,
}

impl DeviceInfo {
    /// What the parameter data of a reply to DEVICE_INFO tell, or `None` if they aren't 19 slots.
    pub fn of(slots: &[u8]) -> Option<DeviceInfo>
        ensures { result ≡ device_info_in slots.now }
    {
        if slots.len() != 19 {
            return None;
        }
        Some(DeviceInfo {
            model_id: word_at(slots, 2),
            category: word_at(slots, 4),
            software_id: long_at(slots, 6),
            footprint: word_at(slots, 10),
            personality: slots[12],
            personalities: slots[13],
            address: address_in(word_at(slots, 14)),
            sub_devices: word_at(slots, 16),
            sensors: slots[18],
        })
    }
}

/// The number in two slots.
fn word_at(slots: &[u8], place: usize) -> u16
    requires { place + 2 ≤ length slots.now }
    ensures { result ≡ word_at slots.now place }
{
    u16::from_be_bytes([slots[place], slots[place + 1]])
}

/// The number in four slots.
fn long_at(slots: &[u8], place: usize) -> u32
    requires { place + 4 ≤ length slots.now }
    ensures { result ≡ long_at slots.now place }
{
    u32::from_be_bytes([
        slots[place],
        slots[place + 1],
        slots[place + 2],
        slots[place + 3],
    ])
}

/// The start address in its field: 0xFFFF says that there is none.
fn address_in(field: u16) -> Option<u16>
    ensures { result ≡ address_in field }
{
    if field == 0xFFFF { None } else { Some(field) }
}
