//! The messages of devices are fetched.

use rdm_collector::Port;
use rdm_host::fault::Fault;
use rdm_host::host::Host;
use rdm_line_talk::{Console, Tally, Targets};
use std::io::Write;

/// Fetches all messages that wait in each of these devices.
pub fn collect_each<'a, H: Host, P: Port, F: Write>(
    console: &mut Console<'a, H, P, F>,
    targets: &Targets,
) -> Result<(), Fault<'a>> {
    let uids = console.uids_of(targets)?;
    let mut tally = Tally::new(uids.len());
    for uid in &uids {
        let done = console.collect(*uid);
        tally.take(&console.teller, done)?;
    }
    tally.end()
}
