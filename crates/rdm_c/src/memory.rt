//! How much memory a responder takes.

ghost use Rattle.std.specs.Prelude.{◌≡◌, ◌<◌};
ghost use Rattle.rdm_c.specs.Memory.{memory_size, memory_status, rounded};

use crate::endpoint::Endpoint;
use crate::status::Status;
use arrayvec::ArrayVec;
use rdm_device::{
    ChoiceName, CommonValues, Kept, Lock, Mode, ParameterDef, Particular, Profile, Slot,
};
use rdm_outbox::Job;
use rdm_params::Message;
use std::mem::size_of;

/// How many bytes the profile takes.
const PROFILE: usize = 4688;

/// How many bytes a sub-device takes.
const SUB_DEVICE: usize = 56;

/// How many bytes a job takes, of which each worker may have as many as the queue is long.
const JOB: usize = 12;

/// How many bytes a message takes.
const MESSAGE: usize = 248;

/// How many bytes a status entry takes.
const ENTRY: usize = 9;

/// How many bytes the responder itself takes, with the room for a reply.
const RESPONDER: usize = 1136;

/// How many bytes stand before the blocks.
const HEAD: usize = 32;

/// A block begins at a multiple of this.
const ALIGNMENT: usize = 16;

const _: () = prove!(size_of::<Profile>() == PROFILE);

const _: () = prove!(size_of::<CommonValues>() == SUB_DEVICE);

const _: () = prove!(size_of::<Job>() == JOB);

const _: () = prove!(size_of::<Message>() == MESSAGE);

const _: () = prove!(size_of::<Endpoint>() == RESPONDER);

// What the header's macros say of what few profiles have.
const _: () = prove!(size_of::<Particular>() == 176);

const _: () = prove!(size_of::<Vec<ParameterDef>>() == 24);

const _: () = prove!(size_of::<ParameterDef>() == 256);

const _: () = prove!(size_of::<Kept>() == 48);

const _: () = prove!(size_of::<ArrayVec<ChoiceName, 64>>() == 3080);

const _: () = prove!(size_of::<ArrayVec<Lock, 64>>() == 264);

const _: () = prove!(size_of::<Vec<Mode>>() == 24);

const _: () = prove!(size_of::<Mode>() == 88);

const _: () = prove!(size_of::<Slot>() == 48);

/// How many bytes of memory a responder takes with room for so many results of slow commands and status entries, and with so
/// many sub-devices.
pub(crate) fn memory_size(queue_size: u16, entries: u16, sub_devices: u16) -> usize
    ensures { result ≡ memory_size queue_size entries sub_devices }
{
    let queue_size = usize::from(queue_size);
    HEAD + rounded(PROFILE)
        + rounded(SUB_DEVICE * usize::from(sub_devices))
        + rounded(JOB * queue_size)
        + rounded(JOB * queue_size)
        + rounded(MESSAGE * queue_size)
        + rounded(ENTRY * usize::from(entries))
        + rounded(RESPONDER)
}

/// What becomes of a responder of this size in so many bytes of memory that begin at this address.
pub(crate) fn memory_status(
    address: usize,
    bytes: usize,
    queue_size: u16,
    entries: u16,
    sub_devices: u16,
) -> Status
    ensures { result ≡ memory_status address bytes queue_size entries sub_devices }
{
    if address % ALIGNMENT != 0 {
        return Status::Unaligned;
    }
    if bytes < memory_size(queue_size, entries, sub_devices) {
        return Status::ShortMemory;
    }
    Status::Done
}

/// The next multiple of `ALIGNMENT`.
fn rounded(bytes: usize) -> usize
    requires { bytes < 4294967296 }
    ensures value { result ≡ rounded bytes }
    ensures few { result < 4294967312 }
{
    (bytes + ALIGNMENT - 1) / ALIGNMENT * ALIGNMENT
}
