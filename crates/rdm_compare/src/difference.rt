//! What has changed from one survey to another.

ghost use Rattle.std.specs.Prelude.{◌≡◌, [], ◌∷◌, ◌++◌, IfOk, OnOk, option_map};
ghost use Rattle.std.specs.List.{flat_map};
ghost use Rattle.rdm_compare.specs.declared.difference.Difference.TheVariants.{Gone};
ghost use Rattle.rdm_compare.specs.Differences.{arrival, changed, changes, differences, fate, field_change, fixture_of, sub_arrival, sub_changes, sub_fate, sub_of};

use crate::field::{FIELDS, a_word};
use crate::kept::copy;
use crate::{Field, Kept, Told};
use rdm_frame::{Text, Uid};
use rdm_survey::SubDevice;
use std::alloc::{AllocError, Global};

/// What has changed since a survey was kept.
#[derive(Debug, Drop)]
pub enum Difference {
    /// It was there, and isn't now.
    Gone {
        /// The fixture.
        uid: Uid,
        /// Its sub-device, or 0 if it's the fixture itself.
        sub: u16,
    },
    /// It wasn't there, and is now.
    New {
        /// The fixture.
        uid: Uid,
        /// Its sub-device, or 0 if it's the fixture itself.
        sub: u16,
        /// What the fixture is, if it tells.
        model: Option<Text>,
    },
    /// It told something else.
    Changed {
        /// The fixture.
        uid: Uid,
        /// Its sub-device, or 0 for the root.
        sub: u16,
        /// What has changed.
        field: Field,
        /// What it told when the survey was kept.
        then: Told,
        /// What it tells now.
        now: Told,
    },
}

/// What has changed from a survey that was kept to what is there now. For each fixture of the first, in its order: that it's gone, or
/// what it tells now that is something else; and then the fixtures that are new, in the order of the second.
///
/// A field that only one of the two tells hasn't changed: a fixture that doesn't answer a question once has still what it had. But a
/// sub-device that no longer answers is gone, as a fixture is.
pub fn differences(
    alloc: Global,
    then: &[Kept],
    now: &[Kept],
) -> Result<Vec<Difference>, AllocError>
    ensures { IfOk result (λ list. list.items ≡ differences then.now now.now) }
{
    let mut list = Vec::new(alloc);
    put_fates(&mut list, then, now)?;
    put_arrivals(&mut list, then, now)?;
    Ok(list)
}

/// What has become of each fixture that was there.
fn put_fates(list: &mut Vec<Difference>, then: &[Kept], now: &[Kept]) -> Result<(), AllocError>
    ensures { OnOk result (list.new.items ≡ list.old.items ++ flat_map (fate now.now) then.now) }
{
    for was in then {
        put_fate(list, was, now)?;
    }
    Ok(())
}

/// What has become of a fixture.
#[tactic(auto, unfolding(crate::specs::Differences::fate))]
fn put_fate(list: &mut Vec<Difference>, was: &Kept, now: &[Kept]) -> Result<(), AllocError>
    ensures { OnOk result (list.new.items ≡ list.old.items ++ fate now.now was.now) }
{
    match fixture_of(was.uid, now) {
        Some(is) => put_changes(list, was, is),
        None => put_gone(list, was.uid, 0),
    }
}

/// A fixture or a sub-device that isn't there now.
fn put_gone(list: &mut Vec<Difference>, uid: Uid, sub: u16) -> Result<(), AllocError>
    ensures { OnOk result (list.new.items ≡ list.old.items ++ Gone uid sub ∷ []) }
{
    list.push(Difference::Gone { uid, sub })?;
    Ok(())
}

/// The fixtures that are new.
fn put_arrivals(list: &mut Vec<Difference>, then: &[Kept], now: &[Kept]) -> Result<(), AllocError>
    ensures { OnOk result (list.new.items ≡ list.old.items ++ flat_map (arrival then.now) now.now) }
{
    for is in now {
        put_arrival(list, then, is)?;
    }
    Ok(())
}

/// A fixture, if it is new.
#[tactic(auto, unfolding(crate::specs::Differences::arrival))]
fn put_arrival(list: &mut Vec<Difference>, then: &[Kept], is: &Kept) -> Result<(), AllocError>
    ensures { OnOk result (list.new.items ≡ list.old.items ++ arrival then.now is.now) }
{
    match fixture_of(is.uid, then) {
        Some(_) => Ok(()),
        None => {
            list.push(Difference::New {
                uid: is.uid,
                sub: 0,
                model: copy(&is.model),
            })?;
            Ok(())
        }
    }
}

/// The changes of a fixture that is there both times.
fn put_changes(list: &mut Vec<Difference>, was: &Kept, is: &Kept) -> Result<(), AllocError>
    ensures { OnOk result (list.new.items ≡ list.old.items ++ changes was.now is.now) }
{
    put_fields(list, &FIELDS, was, is)?;
    let (subs_then, subs_now) = (was.sub_devices.as_slice(), is.sub_devices.as_slice());
    put_sub_fates(list, was.uid, subs_then, subs_now)?;
    put_sub_arrivals(list, was.uid, subs_then, subs_now)
}

/// The changes in these fields.
fn put_fields(
    list: &mut Vec<Difference>,
    fields: &[Field],
    was: &Kept,
    is: &Kept,
) -> Result<(), AllocError>
    ensures { OnOk result (list.new.items ≡ list.old.items ++ flat_map (field_change was.now is.now) fields.now) }
{
    for field in fields {
        put_field(list, *field, was, is)?;
    }
    Ok(())
}

/// The change in a field.
#[tactic(auto, unfolding(crate::specs::Differences::field_change))]
fn put_field(
    list: &mut Vec<Difference>,
    field: Field,
    was: &Kept,
    is: &Kept,
) -> Result<(), AllocError>
    ensures { OnOk result (list.new.items ≡ list.old.items ++ field_change was.now is.now field) }
{
    put_changed(
        list,
        (was.uid, 0),
        field,
        was.told_in(field),
        is.told_in(field),
    )
}

/// A field of a fixture or of its sub-device, if both tell it and not the same.
#[tactic(auto, unfolding(crate::specs::Differences::changed))]
fn put_changed(
    list: &mut Vec<Difference>,
    part: (Uid, u16),
    field: Field,
    then: Option<Told>,
    now: Option<Told>,
) -> Result<(), AllocError>
    ensures { OnOk result (list.new.items ≡ list.old.items ++ changed part.0 part.1 field then now) }
{
    let (Some(then), Some(now)) = (then, now) else {
        return Ok(());
    };
    if then.is_same(&now) {
        return Ok(());
    }
    let (uid, sub) = part;
    list.push(Difference::Changed {
        uid,
        sub,
        field,
        then,
        now,
    })?;
    Ok(())
}

/// What has become of each sub-device that was there.
fn put_sub_fates(
    list: &mut Vec<Difference>,
    uid: Uid,
    then: &[SubDevice],
    now: &[SubDevice],
) -> Result<(), AllocError>
    ensures { OnOk result (list.new.items ≡ list.old.items ++ flat_map (sub_fate uid now.now) then.now) }
{
    for was in then {
        put_sub_fate(list, uid, was, now)?;
    }
    Ok(())
}

/// What has become of a sub-device.
#[tactic(auto, unfolding(crate::specs::Differences::sub_fate))]
fn put_sub_fate(
    list: &mut Vec<Difference>,
    uid: Uid,
    was: &SubDevice,
    now: &[SubDevice],
) -> Result<(), AllocError>
    ensures { OnOk result (list.new.items ≡ list.old.items ++ sub_fate uid now.now was.now) }
{
    match sub_of(was.number, now) {
        Some(is) => put_sub_changes(list, uid, was, is),
        None => put_gone(list, uid, was.number),
    }
}

/// The changes of a sub-device that is there both times.
fn put_sub_changes(
    list: &mut Vec<Difference>,
    uid: Uid,
    was: &SubDevice,
    is: &SubDevice,
) -> Result<(), AllocError>
    ensures { OnOk result (list.new.items ≡ list.old.items ++ sub_changes uid was.now (Some is.now)) }
{
    let part = (uid, was.number);
    let (then, now) = (a_word(was.address), a_word(is.address));
    put_changed(list, part, Field::Address, then, now)?;
    let (then, now) = (a_word(Some(was.footprint)), a_word(Some(is.footprint)));
    put_changed(list, part, Field::Footprint, then, now)
}

/// The sub-devices that are new.
fn put_sub_arrivals(
    list: &mut Vec<Difference>,
    uid: Uid,
    then: &[SubDevice],
    now: &[SubDevice],
) -> Result<(), AllocError>
    ensures { OnOk result (list.new.items ≡ list.old.items ++ flat_map (sub_arrival uid then.now) now.now) }
{
    for is in now {
        put_sub_arrival(list, uid, then, is)?;
    }
    Ok(())
}

/// A sub-device, if it is new.
#[tactic(auto, unfolding(crate::specs::Differences::sub_arrival))]
fn put_sub_arrival(
    list: &mut Vec<Difference>,
    uid: Uid,
    then: &[SubDevice],
    is: &SubDevice,
) -> Result<(), AllocError>
    ensures { OnOk result (list.new.items ≡ list.old.items ++ sub_arrival uid then.now is.now) }
{
    match sub_of(is.number, then) {
        Some(_) => Ok(()),
        None => {
            list.push(Difference::New {
                uid,
                sub: is.number,
                model: None,
            })?;
            Ok(())
        }
    }
}

/// The fixture with a UID.
pub(crate) fn fixture_of(uid: Uid, list: &[Kept]) -> Option<&Kept>
    ensures { option_map (λ kept. kept.now) result ≡ fixture_of uid list.now }
{
    list.iter().find(|kept| kept.uid == uid)
}

/// The sub-device with a number.
pub(crate) fn sub_of(number: u16, list: &[SubDevice]) -> Option<&SubDevice>
    ensures { option_map (λ sub. sub.now) result ≡ sub_of number list.now }
{
    list.iter().find(|sub| sub.number == number)
}
