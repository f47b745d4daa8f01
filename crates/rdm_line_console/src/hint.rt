//! What to type is told if nothing can be read of a port: without a port that is set, a read waits without end.

use rdm_host::fault::Fault;
use rdm_host::host::Host;
use rdm_host::name::Name;
use std::alloc::Global;
use std::sync::Arc;
use std::sync::atomic::{AtomicBool, Ordering};
use std::thread;
use std::time::Duration;

/// Whether a read of a port has returned.
#[derive(Drop)]
pub(crate) struct Hint {
    is_read: Arc<AtomicBool, Global>,
}

impl Hint {
    /// From now on a read of the port of this name is waited for. If none has returned after so many milliseconds, it is told what to type.
    pub(crate) fn after<'a, H: Host>(rt: H, name: &str, millis: u16) -> Result<Hint, Fault<'a>> {
        let alloc = rt.alloc();
        let port = Name(name);
        let text = format!(in alloc;
            "{port}: nothing to read yet. If this persists, press Ctrl-C and run: stty -F {port} raw -echo min 0 time 1\n"
        )?;
        let is_read = Arc::new(alloc, AtomicBool::new(false))?;
        let seen = Arc::try_clone(&is_read)?;
        let watches = move || {
            thread::sleep(&rt, Duration::from_millis(u64::from(millis)));
            if !seen.load(Ordering::Acquire) {
                // Nobody is left to be told if this can't be written.
                let _ = eprint!(rt; "{text}");
            }
        };
        // Nothing but the hint is lost without the thread.
        let _ = thread::spawn(&rt, watches);
        Ok(Hint { is_read })
    }

    /// A read has returned, so that nothing is to be told.
    pub(crate) fn is_over(&self) {
        self.is_read.store(true, Ordering::Release);
    }
}
