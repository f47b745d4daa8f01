//! On which line of the text is what a refusal is about, for the message. No clause speaks of the line.

ghost use Rattle.std.specs.Prelude.{◌≡◌};
ghost use Rattle.rdm_fixture_keys.specs.Faults.{told};

mod walk;
mod way;

use rdm_fixture_keys::Refusal;
use std::alloc::Global;
use walk::place_of;
use way::way_to;

/// The refusal, with its line: that of what is wrong, or of the nearest thing around it that the text has, such as the header of
/// the table if a key is missing. It is the last line of the text if that is the table at the top.
pub(crate) fn with_line(alloc: Global, text: &str, refusal: Refusal) -> Refusal
    ensures { told result ≡ told refusal }
{
    let line = match place_of(alloc, text, way_to(&refusal).as_slice()) {
        Ok(Some(behind)) => Some(line_before(text, behind)),
        Ok(None) => Some(text.lines().count().max(1)),
        // There was no memory to look for it.
        Err(_) => None,
    };
    Refusal { line, ..refusal }
}

/// The line, from 1, on which N bytes are left of the text.
fn line_before(text: &str, behind: usize) -> usize {
    let before = text.len().saturating_sub(behind);
    let ends = text
        .as_bytes()
        .iter()
        .take(before)
        .filter(|b| **b == b'\n')
        .count();
    ends.saturating_add(1)
}
