//! What an outbox is made with.

ghost use Rattle.std.specs.Prelude.{◌≡◌, ◌↔◌, true};
ghost use Rattle.rdm_outbox.specs.Settings.{IsGood, usual_settings};

use rdm_params::Workers;

/// The greatest number of jobs and messages together that an outbox may have room for.
pub const MOST_WAITING: u16 = 1024;

/// The greatest number of status entries that an outbox may have room for.
pub const MOST_ENTRIES: u16 = 1024;

/// What an outbox is made with: its sizes, the number of the first job, and who carries out which job.
#[derive(Clone, Copy, Debug)]
pub struct Settings {
    /// How many jobs and messages together there is room for, 1 to 1,024.
    pub q: u16,
    /// How many status entries that weren't shown there is room for (E1.20 section 10.3.2), 1 to 1,024. Each takes 9 bytes.
    pub entries: u16,
    /// How many jobs each worker may be given, at least 1.
    pub jobs: u32,
    /// The number of each worker's first job. Each later one has the next, and after 4,294,967,295 comes 0. So the jobs of one
    /// outbox can have other numbers than those of one before it.
    pub first_job: u32,
    /// Which worker carries out which job.
    pub workers: Workers,
}

impl Settings {
    /// Settings with room for 1,024 status entries, whose jobs begin at 0 and have the usual workers.
    pub fn usual(q: u16, jobs: u32) -> Settings
        ensures { result ≡ usual_settings q jobs }
    {
        Settings {
            q,
            entries: MOST_ENTRIES,
            jobs,
            first_job: 0,
            workers: Workers::usual(),
        }
    }

    /// Whether an outbox can have these sizes.
    pub fn is_good(&self) -> bool
        ensures { (result ≡ true) ↔ IsGood self.now }
    {
        (1..=MOST_WAITING).contains(&self.q)
            && (1..=MOST_ENTRIES).contains(&self.entries)
            && self.jobs >= 1
    }
}
