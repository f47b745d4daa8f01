//! To what memory was refused.

/// How often a call is made at most: one request for memory in the whole run is refused.
pub(crate) const TRIES: usize = 3;

/// How often memory was refused.
#[derive(Clone, Copy)]
pub(crate) struct Tally {
    /// To what is made ready for the call.
    ready: u32,
    /// To the call itself.
    call: u32,
}

impl Tally {
    /// Nothing was refused yet.
    pub(crate) const NONE: Tally = Tally { ready: 0, call: 0 };

    /// It was refused so often to what is made ready, and so often to the call.
    pub(crate) fn of(ready: u32, call: u32) -> Tally {
        Tally { ready, call }
    }

    /// It was refused to what is made ready.
    pub(crate) fn refused_ready(&mut self) {
        self.ready = self.ready.saturating_add(1);
    }

    /// It was refused to the call.
    pub(crate) fn refused(&mut self) {
        self.call = self.call.saturating_add(1);
    }

    /// What it says of a call that has then answered what it should.
    pub(crate) fn words(self) -> &'static str {
        match (self.ready, self.call) {
            (0, 0) => "answered",
            (_, 0) => "made ready again, then answered",
            (0, 1) => "refused once, then answered",
            _ => "refused more than once",
        }
    }
}
