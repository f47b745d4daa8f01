//! What can be set back to what it was.

ghost use Rattle.std.specs.Prelude.{◌≡◌, ◌++◌, IfOk, OnOk};
ghost use Rattle.std.specs.List.{flat_map};
ghost use Rattle.rdm_compare.specs.Remedies.{address_now, address_remedy, differs, is_address, is_personality, label_remedy, personality_back, personality_remedy, remedies, remedies_among, remedies_of, root_remedy, sub_remedy, to_set};

use crate::Kept;
use crate::difference::{fixture_of, sub_of};
use rdm_frame::{Load, Text, Uid};
use rdm_survey::SubDevice;
use std::alloc::{AllocError, Global};

/// DEVICE_LABEL (E1.20 section 10.5.5).
const DEVICE_LABEL: u16 = 0x0082;

/// DMX_PERSONALITY (section 10.6.1).
const DMX_PERSONALITY: u16 = 0x00E0;

/// DMX_START_ADDRESS (section 10.6.3).
const DMX_START_ADDRESS: u16 = 0x00F0;

/// A SET_COMMAND that sets something back to what it was.
#[derive(Debug, Drop, PartialEq, Eq)]
pub struct Remedy {
    /// The fixture.
    pub uid: Uid,
    /// Its sub-device, or 0 for the root (E1.20 section 9).
    pub sub: u16,
    /// The parameter: DMX_PERSONALITY, DMX_START_ADDRESS or DEVICE_LABEL.
    pub pid: u16,
    /// The parameter data.
    pub data: Load,
}

/// What sets the fixtures of a survey that was kept back to what they were, as far as they are there now and RDM can set it: for each in
/// order its personality, the start addresses of its root and of its sub-devices, and its label, if it tells another now.
///
/// To set a personality may move the start addresses, so they are then set in any case. What can't be set isn't tried: a personality of 0,
/// and a start address outside 1 to 512.
pub fn remedies(alloc: Global, then: &[Kept], now: &[Kept]) -> Result<Vec<Remedy>, AllocError>
    ensures { IfOk result (λ list. list.items ≡ remedies then.now now.now) }
{
    let mut list = Vec::new(alloc);
    for was in then {
        put_among(&mut list, was, now)?;
    }
    Ok(list)
}

/// What sets a fixture back, if it's there.
#[tactic(auto, unfolding(crate::specs::Remedies::remedies_among))]
fn put_among(list: &mut Vec<Remedy>, was: &Kept, now: &[Kept]) -> Result<(), AllocError>
    ensures { OnOk result (list.new.items ≡ list.old.items ++ remedies_among now.now was.now) }
{
    match fixture_of(was.uid, now) {
        Some(is) => put_remedies(list, was, is),
        None => Ok(()),
    }
}

/// What sets a fixture back.
fn put_remedies(list: &mut Vec<Remedy>, was: &Kept, is: &Kept) -> Result<(), AllocError>
    ensures { OnOk result (list.new.items ≡ list.old.items ++ remedies_of was.now is.now) }
{
    let personality = personality_back(was, is);
    let moved = personality.is_some();
    put_personality(list, was.uid, personality)?;
    let root = address_back(moved, was.address, is.address);
    put_address(list, was.uid, 0, root)?;
    let subs = is.sub_devices.as_slice();
    put_subs(list, (was.uid, moved), was.sub_devices.as_slice(), subs)?;
    put_label(list, was.uid, &was.label, &is.label)
}

/// The personality to set back.
fn personality_back(was: &Kept, is: &Kept) -> Option<u8>
    ensures { result ≡ personality_back was.now is.now }
{
    match (was.personality, is.personality) {
        (Some(was), Some(is)) if was > 0 && was != is => Some(was),
        _ => None,
    }
}

/// The start address to set back.
fn address_back(moved: bool, was: Option<u16>, is: Option<u16>) -> Option<u16>
    ensures { result ≡ to_set is_address moved was is }
{
    let was = was?;
    if 1 <= was && was <= 512 && (moved || differs(was, is)) {
        Some(was)
    } else {
        None
    }
}

/// Whether another number is told now.
fn differs(was: u16, is: Option<u16>) -> bool
    ensures { result ≡ differs was is }
{
    match is {
        Some(is) => was != is,
        None => false,
    }
}

/// What sets a personality, if there is one to set.
fn put_personality(
    list: &mut Vec<Remedy>,
    uid: Uid,
    personality: Option<u8>,
) -> Result<(), AllocError>
    ensures { OnOk result (list.new.items ≡ list.old.items ++ personality_remedy uid personality) }
{
    if let Some(number) = personality {
        list.push(Remedy {
            uid,
            sub: 0,
            pid: DMX_PERSONALITY,
            data: Load::of(&[number]),
        })?;
    }
    Ok(())
}

/// What sets a start address, if there is one to set.
fn put_address(
    list: &mut Vec<Remedy>,
    uid: Uid,
    sub: u16,
    address: Option<u16>,
) -> Result<(), AllocError>
    ensures { OnOk result (list.new.items ≡ list.old.items ++ address_remedy uid sub address) }
{
    if let Some(address) = address {
        list.push(Remedy {
            uid,
            sub,
            pid: DMX_START_ADDRESS,
            data: Load::of(&address.to_be_bytes()),
        })?;
    }
    Ok(())
}

/// What sets the start addresses of sub-devices.
fn put_subs(
    list: &mut Vec<Remedy>,
    fixture: (Uid, bool),
    then: &[SubDevice],
    now: &[SubDevice],
) -> Result<(), AllocError>
    ensures { OnOk result (list.new.items ≡ list.old.items ++ flat_map (sub_remedy fixture.0 fixture.1 now.now) then.now) }
{
    for sub in then {
        put_sub(list, fixture, sub, now)?;
    }
    Ok(())
}

/// What sets the start address of a sub-device.
#[tactic(auto, unfolding(crate::specs::Remedies::sub_remedy))]
fn put_sub(
    list: &mut Vec<Remedy>,
    fixture: (Uid, bool),
    sub: &SubDevice,
    now: &[SubDevice],
) -> Result<(), AllocError>
    ensures { OnOk result (list.new.items ≡ list.old.items ++ sub_remedy fixture.0 fixture.1 now.now sub.now) }
{
    let (uid, moved) = fixture;
    let address = address_back(moved, sub.address, address_now(sub.number, now));
    put_address(list, uid, sub.number, address)
}

/// The start address that a sub-device tells now.
fn address_now(number: u16, subs: &[SubDevice]) -> Option<u16>
    ensures { result ≡ address_now number subs.now }
{
    match sub_of(number, subs) {
        Some(sub) => sub.address,
        None => None,
    }
}

/// What sets a label, if another is told now.
fn put_label(
    list: &mut Vec<Remedy>,
    uid: Uid,
    was: &Option<Text>,
    is: &Option<Text>,
) -> Result<(), AllocError>
    ensures { OnOk result (list.new.items ≡ list.old.items ++ label_remedy uid was.now is.now) }
{
    let (Some(was), Some(is)) = (was, is) else {
        return Ok(());
    };
    if was.as_slice() != is.as_slice() {
        list.push(Remedy {
            uid,
            sub: 0,
            pid: DEVICE_LABEL,
            data: Load::of(was.as_slice()),
        })?;
    }
    Ok(())
}
