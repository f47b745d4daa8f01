//! Which devices have a start address and take slots.

ghost use Rattle.std.specs.List.{flat_map};
ghost use Rattle.std.specs.Prelude.{◌≡◌, ◌++◌, IfOk, OnOk};
ghost use Rattle.rdm_survey.specs.Places.{device, devices, devices_of, sub_device};

use crate::{Row, SubDevice};
use rdm_frame::Uid;
use std::alloc::{AllocError, Global};

/// The root or a sub-device of a fixture, if it has a start address and takes slots.
#[derive(Clone, Copy)]
pub struct Device {
    /// The UID of its fixture.
    pub uid: Uid,
    /// Its number, or 0 for the root.
    pub sub: u16,
    /// Its start address.
    pub address: u16,
    /// How many slots it takes.
    pub footprint: u16,
}

/// The devices of all rows that have a start address and take slots, in their order.
pub fn devices(alloc: Global, rows: &[Row]) -> Result<Vec<Device>, AllocError>
    ensures { IfOk result (λ list. list.items ≡ devices rows.now) }
{
    let mut list = Vec::new(alloc);
    for row in rows {
        put_devices(&mut list, row)?;
    }
    Ok(list)
}

/// Those of a fixture: its root, and its sub-devices.
fn put_devices(list: &mut Vec<Device>, row: &Row) -> Result<(), AllocError>
    ensures { OnOk result (list.new.items ≡ list.old.items ++ devices_of row.now) }
{
    if let Some(root) = &row.device {
        put_device(list, row.uid, 0, root.address, root.footprint)?;
    }
    put_sub_devices(list, row.uid, row.sub_devices.as_slice())
}

/// Those of the sub-devices.
fn put_sub_devices(list: &mut Vec<Device>, uid: Uid, subs: &[SubDevice]) -> Result<(), AllocError>
    ensures { OnOk result (list.new.items ≡ list.old.items ++ flat_map (sub_device uid) subs.now) }
{
    for sub in subs {
        put_device(list, uid, sub.number, sub.address, sub.footprint)?;
    }
    Ok(())
}

/// A device, if it has a start address and takes slots.
fn put_device(
    list: &mut Vec<Device>,
    uid: Uid,
    sub: u16,
    address: Option<u16>,
    footprint: u16,
) -> Result<(), AllocError>
    ensures { OnOk result (list.new.items ≡ list.old.items ++ device uid sub address footprint) }
{
    if let Some(address) = address {
        if footprint > 0 {
            list.push(Device {
                uid,
                sub,
                address,
                footprint,
            })?;
        }
    }
    Ok(())
}
