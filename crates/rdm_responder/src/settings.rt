//! What a responder is made with beside its profile, and why it is refused.

ghost use Rattle.std.specs.Prelude.{◌≡◌, ◌≢◌, ◌↔◌, Some};
ghost use Rattle.rdm_responder.specs.Settings.{HasBadSize, HasBadUid, outbox_settings, usual_settings};

use rdm_frame::Uid;
use rdm_outbox::MOST_ENTRIES;
use rdm_params::Workers;
use thiserror::Error;

/// How many jobs each worker can be given: their numbers have 32 bits, so that no two are alike.
const MOST_JOBS: u32 = u32::MAX;

/// Why a responder can't be made, tested from the last to the first.
#[derive(Clone, Copy, Debug, PartialEq, Eq, Error)]
pub enum NewError {
    /// Out of memory.
    #[error("out of memory")]
    OutOfMemory,
    /// The profile breaks a rule, or has too many sub-devices.
    #[error("bad profile")]
    BadProfile,
    /// The size of the queue, or the number of status entries, isn't 1 to 1,024.
    #[error("bad queue size")]
    BadSize,
    /// The UID addresses more than one device.
    #[error("bad UID")]
    BadUid,
}

/// What a responder is made with beside its profile.
#[derive(Clone, Copy, Debug)]
pub struct Settings {
    /// Its UID, which addresses one device.
    pub uid: Uid,
    /// How many results of slow commands there is room for, 1 to 1,024.
    pub queue_size: u16,
    /// How many status entries that weren't shown there is room for (E1.20 section 10.3.2), 1 to 1,024. Each takes 9 bytes: a
    /// controller with little memory has few. While that many wait, a further one is dropped.
    pub entries: u16,
    /// The number of each worker's first job. Each later one has the next, and after 4,294,967,295 comes 0. A report is known by
    /// its job: if the first number is greater than that of each job of the responder before, each report of such a job is
    /// astray.
    pub first_job: u32,
}

impl Settings {
    /// Settings with room for 1,024 status entries, whose jobs begin at 0.
    pub fn usual(uid: Uid, queue_size: u16) -> Settings
        ensures { result ≡ usual_settings uid queue_size }
    {
        Settings {
            uid,
            queue_size,
            entries: MOST_ENTRIES,
            first_job: 0,
        }
    }

    /// Why no responder has these settings, if so, whatever its profile.
    pub fn refusal(&self) -> Option<NewError>
        ensures bad_uid { (result ≡ Some NewError.BadUid) ↔ HasBadUid self.now }
        ensures bad_size { (result ≡ Some NewError.BadSize) ↔ HasBadSize self.now }
        ensures others { (result ≢ Some NewError.BadProfile) × (result ≢ Some NewError.OutOfMemory) }
    {
        if self.uid.is_broadcast() {
            return Some(NewError::BadUid);
        }
        // Whose workers the jobs have is nothing of a size.
        if !self.outbox(Workers::usual()).is_good() {
            return Some(NewError::BadSize);
        }
        None
    }

    /// What the outbox is made with, whose jobs have these workers.
    pub(crate) fn outbox(&self, workers: Workers) -> rdm_outbox::Settings
        ensures { result ≡ outbox_settings self.now workers }
    {
        rdm_outbox::Settings {
            q: self.queue_size,
            entries: self.entries,
            jobs: MOST_JOBS,
            first_job: self.first_job,
            workers,
        }
    }
}
