//! A message is fetched.

ghost use Rattle.std.specs.Prelude.{◌≡◌, Some, nat_lt};
ghost use Rattle.rdm_console.specs.Conversations.{fetched_as, fresh, more_of, patience_after, patience_of, unanswered, with_part, with_silence, with_silent_poll};

use crate::{Came, Sorted};
use std::marker::Model;

/// How many parts a reply has at most, and how many polls a message takes: as many as a parameter of 65,536 slots needs.
const MOST_PARTS: u16 = 300;

/// How many times in a row a device is asked that doesn't answer.
const TRIES: u8 = 3;

/// How much longer a console goes on with a reply or a message that comes in parts.
#[derive(Clone, Copy, Debug, PartialEq, Eq)]
pub(crate) struct Patience {
    /// How many more parts of a reply there may be, or polls for a message.
    pub(crate) left: u16,
    /// How many more requests in a row may be left unanswered.
    pub(crate) tries: u8,
}

/// What comes of a poll, or of as many as the parts of a message need.
#[derive(Clone, Copy, Debug, PartialEq, Eq)]
pub enum Fetched {
    /// A message, which the mailbox has.
    Message,
    /// A message that was handed on before.
    Repeat,
    /// Nothing waits in the device.
    Nothing,
    /// The device has no queue.
    NoQueue,
    /// The device rejects the poll.
    Refused {
        /// The code of the reason (E1.20 table A-17).
        reason: u16,
    },
    /// The device needs time for the poll (section 6.3.3).
    NotYet {
        /// The estimate, in tenths of a second.
        tenths: u16,
    },
    /// The device doesn't answer, as often as it was asked.
    Silent,
    /// The message took as many polls as one may.
    Endless,
}

/// A console that fetches a message, whose parts come one by one (E1.20 section 6.3.2): it polls for the next part at once, and polls
/// again while nothing answers, three times in a row at most.
#[derive(Debug, Drop)]
pub struct Fetching {
    patience: Patience,
}

impl Model for Fetching {
    ghost use Rattle.rdm_console.specs.declared.fetching.Patience.{Patience as ItsPatience};

    ghost Value = { ItsPatience };

    ghost view = { λ f. f.patience };
}

impl Patience {
    /// Nothing came yet, and nothing was left unanswered.
    pub(crate) fn fresh() -> Patience
        ensures { result ≡ fresh }
    {
        Patience {
            left: MOST_PARTS,
            tries: TRIES,
        }
    }

    /// Whether one more may come behind this one.
    pub(crate) fn has_more(self) -> bool
        ensures { result ≡ nat_lt 1 self.left }
    {
        self.left > 1
    }

    /// Whether it may be asked again, if nothing answers.
    pub(crate) fn may_repeat(self) -> bool
        ensures { result ≡ nat_lt 1 self.tries }
    {
        self.tries > 1
    }

    /// What is left when a part came.
    pub(crate) fn with_part(self) -> Patience
        ensures { result ≡ with_part self }
    {
        Patience {
            left: self.left.saturating_sub(1),
            tries: TRIES,
        }
    }

    /// What is left when a command wasn't answered.
    pub(crate) fn with_silence(self) -> Patience
        ensures { result ≡ with_silence self }
    {
        Patience {
            left: self.left,
            tries: self.tries.saturating_sub(1),
        }
    }

    /// What is left when a poll wasn't answered, which counts as one.
    fn with_silent_poll(self) -> Patience
        ensures { result ≡ with_silent_poll self }
    {
        Patience {
            left: self.left.saturating_sub(1),
            tries: self.tries.saturating_sub(1),
        }
    }
}

impl Fetching {
    /// One that hasn't polled yet.
    pub fn new() -> Fetching
        ensures { result ≡ fresh }
    {
        Fetching {
            patience: Patience::fresh(),
        }
    }

    /// Hears what came of a poll. Gives what is fetched then; or `None` if it is a part of which more follow, or nothing answered, and
    /// then it is to be polled again at once. With what is fetched it begins anew.
    pub fn hear(&mut self, came: Came) -> Option<Fetched>
        ensures fetched { result ≡ fetched_as self.old came }
        ensures new { self.new ≡ patience_after self.old came }
    {
        match came {
            Came::Message(Sorted::Part) => self.go_on(Patience::with_part(self.patience)),
            Came::Message(Sorted::Letter) => self.ended(Fetched::Message),
            Came::Message(Sorted::Repeat) => self.ended(Fetched::Repeat),
            Came::Message(Sorted::Nothing) => self.ended(Fetched::Nothing),
            Came::NoQueue => self.ended(Fetched::NoQueue),
            Came::Refused { reason } => self.ended(Fetched::Refused { reason }),
            Came::NotYet { tenths } => self.ended(Fetched::NotYet { tenths }),
            Came::Reply => self.unanswered(),
            Came::Ignored => self.unanswered(),
        }
    }

    /// Nothing answered a poll.
    fn unanswered(&mut self) -> Option<Fetched>
        ensures fetched { result ≡ unanswered self.old }
        ensures new { self.new ≡ patience_of (unanswered self.old) (with_silent_poll self.old) }
    {
        if self.patience.may_repeat() {
            self.go_on(self.patience.with_silent_poll())
        } else {
            self.ended(Fetched::Silent)
        }
    }

    /// It is polled again, with so much patience, if it may be.
    fn go_on(&mut self, patience: Patience) -> Option<Fetched>
        ensures fetched { result ≡ more_of self.old }
        ensures new { self.new ≡ patience_of (more_of self.old) patience }
    {
        if self.patience.has_more() {
            self.patience = patience;
            None
        } else {
            self.ended(Fetched::Endless)
        }
    }

    /// This was fetched.
    fn ended(&mut self, fetched: Fetched) -> Option<Fetched>
        ensures fetched { result ≡ Some fetched }
        ensures new { self.new ≡ fresh }
    {
        self.patience = Patience::fresh();
        Some(fetched)
    }
}
