//! What is wrong with slots, in words.

use rdm_host::fault::Fault;
use rdm_host::host::Host;
use rdm_line_talk::Teller;
use rdm_survey::{Order, Row, clashes, sort};
use rdm_survey_page::put_clash;

/// How many clashes are told at most. New devices all start at slot 1, and each two of them clash.
const MOST_CLASHES: usize = 20;

/// Tells which slots clash, in the order of the UIDs.
pub(crate) fn tell_clashes<'a, H: Host>(
    teller: &Teller<H>,
    rows: &mut [Row],
) -> Result<(), Fault<'a>> {
    let alloc = teller.rt().alloc();
    sort(rows, Order::Uid);
    let clashes = clashes(alloc, rows)?;
    for clash in clashes.iter().take(MOST_CLASHES) {
        let mut line = Vec::new(alloc);
        put_clash(&mut line, *clash)?;
        line.extend_from_slice(b"\n")?;
        teller.tell(line.as_slice())?;
    }
    let rest = clashes.len().saturating_sub(MOST_CLASHES);
    if rest > 0 {
        let line = format!(in alloc; "and {rest} more clashes\n")?;
        teller.tell(line.as_bytes())?;
    }
    Ok(())
}
