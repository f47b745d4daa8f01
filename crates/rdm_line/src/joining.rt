//! Devices join a line.

ghost use Rattle.std.specs.Prelude.{◌≡◌, ◌↔◌, ◌<◌, true, false, map, Err, OnOk, IfOk, Contains, vec_len, vec_capacity};
ghost use Rattle.rdm_frame.specs.Addressing.{is_broadcast};
ghost use Rattle.rdm_frame.specs.UidNumber.{uid_number};
ghost use Rattle.rdm_line.specs.Line.{AreInOrder, IsGap, uid_of};

use crate::{Device, Line};
use rdm_frame::Uid;
use thiserror::Error;

/// Why a device can't join a line, tested from the first to the last.
#[derive(Clone, Copy, Debug, PartialEq, Eq, Error)]
pub enum JoinError {
    /// Its UID addresses more than one device.
    #[error("bad UID")]
    BadUid,
    /// A device with its UID is on the line.
    #[error("the UID is taken")]
    Taken,
    /// Out of memory.
    #[error("out of memory")]
    OutOfMemory,
}

/// A device that couldn't join, and why.
#[derive(Debug, Drop)]
pub struct Refused<D> {
    /// The device.
    pub device: D,
    /// Why it couldn't.
    pub error: JoinError,
}

impl<D: Device> Line<D> {
    ghost use Rattle.std.specs.Prelude.{◌≡◌, ◌↔◌, List, true, false, OnOk, IfErr, OnErr, IsErrAnd, Contains};
    ghost use Rattle.rdm_frame.specs.Addressing.{is_broadcast};
    ghost use Rattle.rdm_responder.specs.History.{History};
    ghost use Rattle.rdm_line.specs.Line.{StandFor, joined};

    /// Puts a device on the line.
    ///
    /// A UID that addresses more than one device is rejected first, then one that is taken, and last comes out of memory.
    pub fn join(&mut self, device: D) -> Result<(), Refused<D>>
        ensures stands { OnOk result ((hs : List History) (h : History) → StandFor D.stands self.old hs → D.stands device h
            → StandFor D.stands self.new (joined h hs)) }
        ensures rule { self.new.rule ≡ self.old.rule }
        ensures bad_uid { (h : History) → D.stands device h
            → (IsErrAnd result (λ r. r.error ≡ JoinError.BadUid) ↔ (is_broadcast h.setup.uid ≡ true)) }
        ensures taken { (h : History) → D.stands device h → (IsErrAnd result (λ r. r.error ≡ JoinError.Taken)
            ↔ ((is_broadcast h.setup.uid ≡ false) × Contains self.old.uids h.setup.uid)) }
        ensures back { IfErr result (λ r. r.device ≡ device) }
        ensures same { OnErr result (self.new ≡ self.old) }
    {
        let uid = device.uid();
        let index = match place_for(&mut self.numbers, uid) {
            Ok(index) => index,
            Err(error) => return Err(Refused { device, error }),
        };
        if self
            .hints
            .make_room(self.numbers.len().saturating_add(1))
            .is_err()
        {
            return Err(Refused {
                device,
                error: JoinError::OutOfMemory,
            });
        }
        match self.devices.insert(index, device) {
            Ok(()) => {
                // There is room.
                let _ = self.numbers.insert(index, uid.number());
                self.hints.note_all(self.numbers.as_slice());
                Ok(())
            }
            Err(refused) => Err(Refused {
                device: refused.value,
                error: JoinError::OutOfMemory,
            }),
        }
    }
}

/// Where a UID is to stand. There is room for its number then.
fn place_for(numbers: &mut Vec<u64>, uid: Uid) -> Result<usize, JoinError>
    requires { AreInOrder numbers.old.items }
    ensures items { numbers.new.items ≡ numbers.old.items }
    ensures len { vec_len numbers.new ≡ vec_len numbers.old }
    ensures room { OnOk result (vec_len numbers.new < vec_capacity numbers.new) }
    ensures single { OnOk result (uid.device < 0xFFFFFFFF) }
    ensures place { IfOk result (IsGap numbers.old.items (uid_number uid)) }
    ensures bad_uid { (result ≡ Err JoinError.BadUid) ↔ (is_broadcast uid ≡ true) }
    ensures taken { (result ≡ Err JoinError.Taken)
        ↔ ((is_broadcast uid ≡ false) × Contains (map uid_of numbers.old.items) uid) }
{
    if uid.is_broadcast() {
        return Err(JoinError::BadUid);
    }
    let index = match numbers.binary_search(&uid.number()) {
        Ok(_) => return Err(JoinError::Taken),
        Err(index) => index,
    };
    match numbers.reserve_exact(1) {
        Ok(()) => Ok(index),
        Err(_) => Err(JoinError::OutOfMemory),
    }
}
