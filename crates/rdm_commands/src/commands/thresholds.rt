//! Which status entries are noted.

ghost use Rattle.std.specs.Prelude.{◌≡◌};
ghost use Rattle.rdm_commands.specs.Jobs.Thresholds.{notes, reports};

use super::Devices;
use rdm_device::Place;
use rdm_frame::{Entry, Severity};
use rdm_table::Verb;

impl Devices {
    /// Whether a status entry is noted, by the threshold of its own device (E1.20 section 10.3.5): that isn't 00, and
    /// the entry ranks at least as high. It isn't if there is no such device.
    #[tactic(auto, unfolding(crate::specs::Jobs::Thresholds::notes))]
    pub fn notes(&self, entry: &Entry) -> bool
        ensures { result ≡ notes self.now entry.now }
    {
        match self.first_place(entry.sub, Verb::Get) {
            Some(place) => reports(&place, entry.severity),
            None => false,
        }
    }
}

/// Whether a device reports of an entry of this severity.
#[tactic(auto, unfolding(rdm_added::specs::Views::State::common_entries))]
fn reports(place: &Place<'_>, severity: Severity) -> bool
    ensures { result ≡ reports severity place.now }
{
    let threshold = place.common.report_threshold;
    threshold != 0 && threshold <= severity.rank()
}
