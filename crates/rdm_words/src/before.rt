//! What the lines before one say of it.

ghost use Rattle.std.specs.Prelude.{◌≡◌, ℕ, ◌++◌, Some, OnOk};
ghost use Rattle.rdm_frame.specs.declared.uid.Uid.{Uid as TheUid};
ghost use Rattle.rdm_words.specs.Before.{before_all, after, with_request, fixture_of, is_poll, IsAnswerIn};

use crate::Known;
use crate::data::known::Facts;
use rdm_frame::standard::{GET_COMMAND, QUEUED_MESSAGE};
use rdm_frame::{FrameView, Uid, Wire, branch_uid, decode_view};
use rdm_trace::Line;

/// What went before a line of a trace: by it a line is said that doesn't name its fixture. That is the one that was polled last with a GET
/// of QUEUED_MESSAGE, or, where none was polled, the one that was asked last.
#[derive(Debug, Drop)]
pub struct Before {
    polled: Option<Uid>,
    asked: Option<Uid>,
    /// The reply to the last request.
    reply: Option<Wire>,
}

impl Before {
    /// Nothing went before the first line.
    pub fn nothing() -> Before
        ensures { result ≡ before_all }
    {
        Before {
            polled: None,
            asked: None,
            reply: None,
        }
    }

    /// The next line is behind this one.
    #[tactic(auto, unfolding(crate::specs::Before::after))]
    pub fn then(&mut self, line: &Line)
        ensures { self.new ≡ after line.now self.old }
    {
        match line {
            Line::Send { bytes, .. } => self.send(bytes.as_slice()),
            Line::Reply(reply) => self.reply = copy_of(reply),
            Line::Job(_)
            | Line::Heard(_)
            | Line::Found(_)
            | Line::Arrive { .. }
            | Line::Panel { .. }
            | Line::Message(_)
            | Line::Time { .. }
            | Line::End => {}
        }
    }

    /// A request is sent with these bytes.
    fn send(&mut self, bytes: &[u8])
        ensures { self.new ≡ with_request bytes.now self.old }
    {
        self.reply = None;
        if let Ok(frame) = decode_view(bytes) {
            if !frame.dst.is_broadcast() {
                self.asked = Some(frame.dst);
                if is_poll(&frame) {
                    self.polled = Some(frame.dst);
                }
            }
        }
    }

    /// The fixture of a line that names none.
    fn fixture(&self) -> Option<Uid>
        ensures { result ≡ fixture_of self.now }
    {
        match self.polled {
            Some(uid) => Some(uid),
            None => self.asked,
        }
    }

    /// What is known of that fixture.
    pub(crate) fn facts<'a>(&self, known: &Known<'a>) -> Facts<'a> {
        match self.fixture() {
            Some(uid) => known.at(uid),
            None => Facts::none(),
        }
    }

    /// Which device has answered DISC_UNIQUE_BRANCH by the last reply.
    pub fn answerer(&self) -> Option<Uid>
        ensures read { (uid : TheUid) → IsAnswerIn self.now.reply uid → result ≡ Some uid }
        ensures only { (uid : TheUid) → result ≡ Some uid → IsAnswerIn self.now.reply uid }
    {
        match &self.reply {
            Some(bytes) => branch_uid(bytes.as_slice()),
            None => None,
        }
    }
}

/// Whether a request asks for the next message.
fn is_poll(frame: &FrameView<'_>) -> bool
    ensures { result ≡ is_poll frame.now }
{
    frame.class == GET_COMMAND && frame.pid == QUEUED_MESSAGE
}

/// A reply, copied.
fn copy_of(reply: &Option<Wire>) -> Option<Wire>
    ensures { result ≡ reply.now }
{
    match reply {
        Some(bytes) => Some(bytes.copy()),
        None => None,
    }
}
