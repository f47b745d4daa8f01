//! Captures in place of traces.

use rdm_capture::CaptureFault;
use rdm_host::fault::Fault;

/// Whether the capture of this name makes sense to its end, or else where it doesn't.
pub(crate) fn sound_to_its_end<'a>(
    name: &'a str,
    fault: Option<CaptureFault>,
) -> Result<(), Fault<'a>> {
    match fault {
        Some(CaptureFault { at }) => Err(Fault::NoCapture(name, at)),
        None => Ok(()),
    }
}
