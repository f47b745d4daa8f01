//! What is said of a reply.

use rdm_frame::Wire;
use thiserror::Error;

/// A reply that was judged.
#[derive(Debug, Drop)]
pub struct Judged {
    /// What is said of it.
    pub verdict: Verdict,
    /// The reply that is due if nothing has happened to the fixture but what it was asked; `None` if none is.
    pub given: Option<Wire>,
}

/// What is said of a reply, by the reply rules of E1.20 and by what its fixture was asked before.
#[derive(Clone, Copy, Debug, PartialEq, Eq)]
pub enum Verdict {
    /// A fixture like this that has received the same requests, and to which nothing else has happened, replies so.
    Right,
    /// No fixture like this replies so, whatever happened to it: the reply breaks this rule.
    Wrong(Rule),
    /// Some fixture like this may reply so. Whether this one may depends on what a trace doesn't say.
    Open(Doubt),
}

/// A rule that a reply can break.
#[derive(Clone, Copy, Debug, PartialEq, Eq, Error)]
pub enum Rule {
    /// A broadcast gets no response, and neither does a request to another device, or what isn't a frame (E1.20 section 6.2.4).
    #[error("nothing is to be answered")]
    Silence,
    /// DISC_UNIQUE_BRANCH is answered only by a device whose UID is within the branch (section 7.5).
    #[error("the UID isn't within the branch")]
    Branch,
    /// A response goes from the device that was addressed to the one that asked (sections 6.2.4 and 6.2.5).
    #[error("wrong source or destination UID")]
    Addresses,
    /// A response has the transaction number of the request (section 6.2.6).
    #[error("wrong transaction number")]
    TransactionNumber,
    /// A response has the sub-device and the parameter of the request, and its command class plus 1 (sections 6.2.9 and 6.2.10).
    #[error("wrong sub-device, command class or parameter")]
    Parameter,
    /// A slow command is answered with ACK_TIMER and any other isn't (section 6.3).
    #[error("wrong response type")]
    ResponseType,
    /// A request is rejected for this reason, or isn't (section 6.3.4, table A-17).
    #[error("wrong NACK, or none where one is due")]
    Reason,
    /// ACK_TIMER has the estimate that the fixture's file gives (section 6.3.3).
    #[error("wrong estimate")]
    Estimate,
    /// The response to DISC_MUTE and DISC_UN_MUTE has the control field, and nothing else that could differ (section 7.6).
    #[error("wrong response to a mute")]
    Mute,
    /// A device that has answered DISC_MUTE, and has received no DISC_UN_MUTE since, doesn't answer DISC_UNIQUE_BRANCH (section 7.6).
    #[error("the device is muted")]
    Muted,
    /// QUEUED_MESSAGE and STATUS_MESSAGES that ask for the last message get the message again that one of them got before (section 10.3.1).
    #[error("not the last message again")]
    LastMessage,
    /// The message count falls by one at most with each QUEUED_MESSAGE, and by nothing else (section 6.2.8).
    #[error("too few messages wait")]
    Count,
}

impl Rule {
    /// The section of E1.20 that the rule comes from.
    pub fn section(self) -> &'static str {
        match self {
            Rule::Silence => "6.2.4",
            Rule::Branch => "7.5",
            Rule::Addresses => "6.2.5",
            Rule::TransactionNumber => "6.2.6",
            Rule::Parameter => "6.2.10",
            Rule::ResponseType => "6.3",
            Rule::Reason => "6.3.4",
            Rule::Estimate => "6.3.3",
            Rule::Mute | Rule::Muted => "7.6",
            Rule::LastMessage => "10.3.1",
            Rule::Count => "6.2.8",
        }
    }
}

/// Why nothing more can be said of a reply.
#[derive(Clone, Copy, Debug, PartialEq, Eq, Error)]
pub enum Doubt {
    /// There is none where one is due: it may have been lost, or the request was.
    #[error("no reply was received")]
    Lost,
    /// It isn't a frame: it may have been altered on its way.
    #[error("not a valid frame")]
    Altered,
    /// It comes from another device, or several answered at once.
    #[error("another device answered")]
    Other,
    /// It depends on whether the device is muted.
    #[error("the device may be muted or not")]
    Muted,
    /// It depends on the values that the device keeps, or on what waits in its queue.
    #[error("it depends on what the device keeps")]
    Kept,
}
