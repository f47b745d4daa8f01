//! What fixtures said of themselves.

ghost use Rattle.std.specs.Prelude.{◌≡◌, ◌≤◌, [], ◌∷◌, ◌++◌, true, false, length, Some, IfSome, OnOk};
ghost use Rattle.rdm_words.specs.Learned.{is_about, was_asked, IsSaidBy, IsSource};

use rdm_frame::standard::{
    ACK, ALL_SENSORS, GET_COMMAND_RESPONSE, PARAMETER_DESCRIPTION, SENSOR_VALUE,
    SET_COMMAND_RESPONSE, STATUS_MESSAGES,
};
use rdm_frame::{FrameView, Load, Uid, decode_view};
use std::alloc::{AllocError, Global};

/// What a status ID means (E1.20 section 10.3.3).
pub(crate) const STATUS_ID_DESCRIPTION: u16 = 0x0031;

/// What a sensor measures (section 10.7.1).
pub(crate) const SENSOR_DEFINITION: u16 = 0x0200;

/// How many slots a status message has.
const STATUS_SLOTS: usize = 9;

/// The first byte of the least status ID of the maker's own.
const MAKERS_FIRST: u8 = 0x80;

/// A GET that has to be asked first, at the root device.
#[derive(Debug, Drop)]
pub struct Question {
    /// Which fixture is asked.
    pub uid: Uid,
    /// The parameter.
    pub pid: u16,
    /// What is asked with.
    pub data: Load,
}

/// A question that was asked, and the data that were told, if any were.
#[derive(Debug, Drop)]
struct Answer {
    uid: Uid,
    pid: u16,
    asked: Load,
    told: Option<Load>,
}

/// What fixtures said of themselves, so that their values can be said with unit and text: what their sensors measure, what status IDs of
/// the maker's mean, and what parameters of the maker's are.
#[derive(Debug, Drop)]
pub struct Learned {
    answers: Vec<Answer>,
}

impl Learned {
    /// Nothing so far.
    pub fn new(alloc: Global) -> Learned
        ensures { result.answers.items ≡ [] }
    {
        Learned {
            answers: Vec::new(alloc),
        }
    }

    /// What to ask before these bytes of a response can be said in full: SENSOR_DEFINITION of a sensor, STATUS_ID_DESCRIPTION of an ID of
    /// the maker's, PARAMETER_DESCRIPTION of a PID of the maker's. `None` if nothing is missing, or it was asked before.
    pub fn missing(&self, reply: &[u8]) -> Option<Question>
        // What was noted isn't asked again.
        ensures unasked { IfSome result (λ q. was_asked q.uid q.pid q.data self.now.answers.items ≡ false) }
        // Asked is the fixture that responded.
        ensures whom { IfSome result (λ q. IsSource q.uid reply.now) }
    {
        match decode_view(reply) {
            Ok(frame) => self.missing_of(&frame),
            Err(_) => None,
        }
    }

    /// Notes what was answered: the data of an ACK, or `None` if the fixture says nothing, so that it isn't asked again.
    pub fn note(&mut self, question: &Question, data: Option<&[u8]>) -> Result<(), AllocError>
        ensures noted { OnOk result (was_asked question.now.uid question.now.pid question.now.data self.new.answers.items ≡ true) }
    {
        let told = match data {
            Some(data) => Load::from_slice(data),
            None => None,
        };
        let answer = Answer {
            uid: question.uid,
            pid: question.pid,
            asked: question.data.copy(),
            told,
        };
        put(&mut self.answers, answer)
    }

    /// What the fixture with this UID told when it was asked so.
    pub(crate) fn told(&self, uid: Uid, pid: u16, asked: &[u8]) -> Option<&[u8]>
        ensures own { IfSome result (λ told. IsSaidBy uid pid asked.now told.now self.now.answers.items) }
    {
        for answer in &self.answers {
            if is_about(answer, uid, pid, asked) {
                return told_in(answer);
            }
        }
        None
    }

    /// What is missing of a response.
    fn missing_of(&self, frame: &FrameView<'_>) -> Option<Question>
        ensures unasked { IfSome result (λ q. was_asked q.uid q.pid q.data self.now.answers.items ≡ false) }
        ensures whom { IfSome result (λ q. q.uid ≡ frame.now.src) }
    {
        let (uid, pid) = (frame.src, frame.pid);
        if frame.port != ACK || !is_answer(frame.class) {
            return None;
        }
        match frame.body {
            [number, ..] if pid == SENSOR_VALUE && *number != ALL_SENSORS => {
                self.unasked(uid, SENSOR_DEFINITION, &[*number])
            }
            [_, ..] if is_makers(pid) => {
                self.unasked(uid, PARAMETER_DESCRIPTION, &pid.to_be_bytes())
            }
            entries if pid == STATUS_MESSAGES => self.missing_text(uid, entries),
            _ => None,
        }
    }

    /// What the first status ID means of which that is missing.
    fn missing_text(&self, uid: Uid, entries: &[u8]) -> Option<Question>
        ensures unasked { IfSome result (λ q. was_asked q.uid q.pid q.data self.now.answers.items ≡ false) }
        ensures whom { IfSome result (λ q. q.uid ≡ uid) }
    {
        for entry in entries.chunks(STATUS_SLOTS) {
            if let [_, _, _, a, b, ..] = entry {
                if *a >= MAKERS_FIRST {
                    if let Some(question) = self.unasked(uid, STATUS_ID_DESCRIPTION, &[*a, *b]) {
                        return Some(question);
                    }
                }
            }
        }
        None
    }

    /// This question, unless it was asked before.
    fn unasked(&self, uid: Uid, pid: u16, data: &[u8]) -> Option<Question>
        requires short { length data.now ≤ 2 }
        ensures unasked { IfSome result (λ q. was_asked q.uid q.pid q.data self.now.answers.items ≡ false) }
        ensures whom { IfSome result (λ q. q.uid ≡ uid) }
    {
        if self.was_asked(uid, pid, data) {
            return None;
        }
        Some(Question {
            uid,
            pid,
            data: Load::of(data),
        })
    }

    /// Whether a question was asked.
    fn was_asked(&self, uid: Uid, pid: u16, asked: &[u8]) -> bool
        ensures { result ≡ was_asked uid pid asked.now self.now.answers.items }
    {
        self.answers
            .iter()
            .any(|answer| is_about(answer, uid, pid, asked))
    }
}

/// Puts an answer behind others.
fn put(answers: &mut Vec<Answer>, answer: Answer) -> Result<(), AllocError>
    ensures { OnOk result (answers.new.items ≡ answers.old.items ++ answer ∷ []) }
{
    match answers.push(answer) {
        Ok(()) => Ok(()),
        Err(_) => Err(AllocError),
    }
}

/// The data of an answer, if there are any.
fn told_in(answer: &Answer) -> Option<&[u8]>
    ensures { IfSome result (λ told. answer.now.told ≡ Some told.now) }
{
    match &answer.told {
        Some(data) => Some(data.as_slice()),
        None => None,
    }
}

/// Whether an answer is one to this question.
fn is_about(answer: &Answer, uid: Uid, pid: u16, asked: &[u8]) -> bool
    ensures { result ≡ is_about uid pid asked.now answer.now }
{
    answer.uid == uid && answer.pid == pid && answer.asked.as_slice() == asked
}

/// Whether a command class is that of a response which says a value.
fn is_answer(class: u8) -> bool {
    class == GET_COMMAND_RESPONSE || class == SET_COMMAND_RESPONSE
}

/// Whether a parameter is the maker's own.
fn is_makers(pid: u16) -> bool {
    0x8000 <= pid && pid <= 0xFFDF
}
