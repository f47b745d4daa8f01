//! What a controller talks through.

ghost use Rattle.std.specs.Prelude.{◌≡◌, ℕ, List, Option, IfOk, IfErr};

use rdm_frame::Wire;
use thiserror::Error;

/// Why a port can't say what is heard.
#[derive(Clone, Copy, Debug, PartialEq, Eq, Error)]
pub enum PortError {
    /// The line is closed: nothing is at its other end any more.
    #[error("the line is closed")]
    Closed,
    /// Reading failed.
    #[error("read")]
    Read,
    /// Writing failed, or no byte was taken. The request may be cut off on the line.
    #[error("write")]
    Write,
}

/// A port on a line, through which a controller talks: it sends a request, and says what is heard then.
///
/// Which bytes may be heard after a request is for each port to say, by its relation `hears`. `Collector::hear` says whether
/// they answer the request. How it may fail is for each to say by `fails`.
pub trait Port {
    ghost use Rattle.rdm_collector.specs.declared.port.PortError.{PortError};

    // From this state of the port, when these bytes are sent, these may be heard, or nothing, and it is in that state then.
    ghost hears: { Self → List ℕ → Option (List ℕ) → Self → Type 0 };

    // From this state of the port, when these bytes are sent, it may fail so, and it is in that state then.
    ghost fails: { Self → List ℕ → PortError → Self → Type 0 };

    /// Sends the bytes of a request, and waits for what comes: the bytes that are heard, or `None` if nothing is.
    fn exchange(&mut self, request: &Wire) -> Result<Option<Wire>, PortError>
        ensures heard { IfOk result (λ heard. hears self.old request.now heard self.new) }
        ensures failed { IfErr result (λ error. fails self.old request.now error self.new) };
}
