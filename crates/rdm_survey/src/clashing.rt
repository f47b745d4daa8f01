//! Which places clash.

ghost use Rattle.std.specs.Prelude.{◌≡◌, ◌++◌, IfOk, OnOk, map, filter};
ghost use Rattle.rdm_survey.specs.declared.place.Clash.TheVariants.{Overlap};
ghost use Rattle.rdm_survey.specs.Places.{place_of, places, meets, past_end, clashes_with, clashes};

use crate::device::{Device, devices};
use crate::{Clash, Place, Row};
use std::alloc::{AllocError, Global};

/// The last slot of DMX512.
const LAST_SLOT: u32 = 512;

/// What is wrong with the slots of these rows, in their order: each place that goes past slot 512, and each two places that have a slot in
/// common, once.
pub fn clashes(alloc: Global, rows: &[Row]) -> Result<Vec<Clash>, AllocError>
    ensures { IfOk result (λ list. list.items ≡ clashes rows.now) }
{
    let places = places(alloc, rows)?;
    let mut list = Vec::new(alloc);
    let mut rest = places.as_slice();
    while let [place, more @ ..] = rest {
        put_clashes(&mut list, *place, more)?;
        rest = more;
    }
    Ok(list)
}

/// What is wrong with a place, by itself and with those behind it.
fn put_clashes(list: &mut Vec<Clash>, place: Place, rest: &[Place]) -> Result<(), AllocError>
    ensures { OnOk result (list.new.items ≡ list.old.items ++ clashes_with place rest.now) }
{
    put_past_end(list, place)?;
    put_overlaps(list, place, rest)
}

/// Says it if a place goes past slot 512.
fn put_past_end(list: &mut Vec<Clash>, place: Place) -> Result<(), AllocError>
    ensures { OnOk result (list.new.items ≡ list.old.items ++ past_end place) }
{
    if place.last > LAST_SLOT {
        list.push(Clash::PastEnd(place))?;
    }
    Ok(())
}

/// Those of the places behind it that have a slot in common with this one.
fn put_overlaps(list: &mut Vec<Clash>, place: Place, rest: &[Place]) -> Result<(), AllocError>
    ensures { OnOk result (list.new.items ≡ list.old.items ++ map (λ b. Overlap place b) (filter (λ b. meets place b) rest.now)) }
{
    for other in rest {
        if meets(place, *other) {
            list.push(Clash::Overlap(place, *other))?;
        }
    }
    Ok(())
}

/// Whether there is a slot that both take.
fn meets(place: Place, other: Place) -> bool
    ensures { result ≡ meets place other }
{
    u32::from(place.first) <= other.last && u32::from(other.first) <= place.last
}

/// The places of all rows, in their order.
fn places(alloc: Global, rows: &[Row]) -> Result<Vec<Place>, AllocError>
    ensures { IfOk result (λ list. list.items ≡ places rows.now) }
{
    let devices = devices(alloc, rows)?;
    let mut list = Vec::new(alloc);
    put_places(&mut list, devices.as_slice())?;
    Ok(list)
}

/// The places of these devices.
fn put_places(list: &mut Vec<Place>, devices: &[Device]) -> Result<(), AllocError>
    ensures { OnOk result (list.new.items ≡ list.old.items ++ map place_of devices.now) }
{
    for device in devices {
        list.push(place_of(*device))?;
    }
    Ok(())
}

/// The slots from the start address of a device on.
fn place_of(device: Device) -> Place
    ensures { result ≡ place_of device }
{
    let Device {
        uid,
        sub,
        address,
        footprint,
    } = device;
    Place {
        uid,
        sub,
        first: address,
        last: (u32::from(address) + u32::from(footprint)).saturating_sub(1),
    }
}
