//! Start addresses one behind the other.

ghost use Rattle.std.specs.Prelude.{◌≡◌, ◌≤◌, ◌-◌, ◌^◌, min, IfErr, IfOk, OnOk};
ghost use Rattle.rdm_survey.specs.Places.{devices};
ghost use Rattle.rdm_addresses.specs.declared.proposing.ProposalError.TheVariants.{OutOfMemory};
ghost use Rattle.rdm_addresses.specs.Proposals.{assignments, behind, Fits, greatest, IsReason, last_slot, proposal};

use crate::Assignment;
use rdm_survey::{Device, Row, devices};
use std::alloc::{AllocError, AllocFailed, Global};
use thiserror::Error;

/// The last slot of DMX512.
const LAST_SLOT: u32 = 512;

/// Why there is no proposal.
#[derive(Clone, Copy, Debug, PartialEq, Eq, Error)]
pub enum ProposalError {
    /// There is no memory for it.
    #[error("out of memory")]
    OutOfMemory,
    /// The first address is 0, and slots are counted from 1.
    #[error("there is no slot 0")]
    SlotZero,
    /// The devices need slots past 512.
    #[error("the fixtures need slots up to {last}, and the last one is 512")]
    NoRoom {
        /// The last slot that they need, or 4294967295 if it is beyond that.
        last: u32,
    },
}

impl From<AllocError> for ProposalError {
    ghost from_gives = { λ _ e. e ≡ OutOfMemory };

    fn from(_error: AllocError) -> Self {
        ProposalError::OutOfMemory
    }
}

impl<T: Drop> From<AllocFailed<T>> for ProposalError {
    ghost from_gives = { λ _ e. e ≡ OutOfMemory };

    fn from(_error: AllocFailed<T>) -> Self {
        ProposalError::OutOfMemory
    }
}

/// Proposes start addresses for the fixtures of these rows, in their order: the first device gets the address `from`, and each other one
/// that behind the device before it and a gap of `gap` slots.
///
/// The root of a row comes first, and then its sub-devices in the order of the row (E1.20 section 9). A device takes part if it has a start
/// address and its footprint is above 0 (sections 10.5.1 and 10.6.3).
pub fn propose(
    alloc: Global,
    rows: &[Row],
    from: u16,
    gap: u16,
) -> Result<Vec<Assignment>, ProposalError>
    ensures list { IfOk result (λ list. list.items ≡ proposal from gap rows.now) }
    ensures fits { OnOk result (Fits from gap (devices rows.now)) }
    ensures reason { IfErr result (λ e. IsReason e from gap (devices rows.now)) }
{
    if from == 0 {
        return Err(ProposalError::SlotZero);
    }
    let devices = devices(alloc, rows)?;
    let last = last_slot(devices.as_slice(), from, gap);
    if last > LAST_SLOT {
        return Err(ProposalError::NoRoom { last });
    }
    Ok(assignments(alloc, devices.as_slice(), from, gap)?)
}

/// The last slot that these devices need, or `u32::MAX` if it is beyond that.
fn last_slot(devices: &[Device], from: u16, gap: u16) -> u32
    ensures { result ≡ min (last_slot from gap devices.now) greatest }
{
    if devices.is_empty() {
        return 0;
    }
    // Behind the last device is its gap, which needs no slots.
    let last = behind(devices, from, gap).saturating_sub(u64::from(gap) + 1);
    u32::try_from(last).unwrap_or(u32::MAX)
}

/// The start address behind these devices, or `u64::MAX` if it is beyond that.
fn behind(devices: &[Device], from: u16, gap: u16) -> u64
    ensures { result ≡ min (behind from gap devices.now) (2 ^ 64 - 1) }
{
    let mut next = u64::from(from);
    for device in devices {
        next = next.saturating_add(u64::from(device.footprint) + u64::from(gap));
    }
    next
}

/// The start addresses of devices that have room.
fn assignments(
    alloc: Global,
    devices: &[Device],
    from: u16,
    gap: u16,
) -> Result<Vec<Assignment>, AllocError>
    requires { last_slot from gap devices.now ≤ 512 }
    ensures { IfOk result (λ list. list.items ≡ assignments from gap devices.now) }
{
    let mut list = Vec::new(alloc);
    let mut next = u32::from(from);
    for device in devices {
        list.push(Assignment {
            uid: device.uid,
            sub: device.sub,
            was: device.address,
            address: next as u16,
            footprint: device.footprint,
        })?;
        next += u32::from(device.footprint) + u32::from(gap);
    }
    Ok(list)
}
