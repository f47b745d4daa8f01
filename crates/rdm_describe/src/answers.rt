//! What a fixture answered.

ghost use Rattle.std.specs.Prelude.{◌≡◌, ◌+◌, ◌<◌, ◌≤◌, slice_index};
ghost use Rattle.std.specs.Option.{option_copied};
ghost use Rattle.rdm_describe.specs.Answers as spec;

use rdm_frame::Load;

/// The parameter ID of which parameters there are (E1.20 section 10.4.1).
pub(crate) const SUPPORTED_PARAMETERS: u16 = 0x0050;

/// The most numbers that are read of a list.
const MOST_WORDS: usize = 1000;

/// What a fixture is asked: a GET of a parameter.
#[derive(Clone, Copy, Debug, PartialEq, Eq)]
pub struct Question {
    /// The sub-device, or 0 for the root.
    pub sub: u16,
    /// The parameter ID.
    pub pid: u16,
    /// What it is asked about, as the number of a sensor; 0 where there is nothing to say.
    pub about: u16,
}

/// What a fixture answered to a question.
#[derive(Debug, Drop)]
pub struct Answer {
    /// The question.
    pub question: Question,
    /// The parameter data of the reply, of all its parts.
    pub data: Vec<u8>,
    /// How long the fixture said that it takes, in tenths of a second, if it didn't answer at once (E1.20 section 6.3.3).
    pub estimate: Option<u16>,
}

/// How a parameter is told what it is asked about.
#[derive(Clone, Copy, Debug, PartialEq, Eq)]
pub(crate) enum About {
    /// By no data.
    Nothing,
    /// By a number in one slot.
    Byte,
    /// By a number in two slots.
    Word,
}

impl Question {
    /// The parameter data of its GET.
    pub fn load(&self) -> Load
        ensures { result ≡ spec.load_of self.now }
    {
        let [high, low] = self.about.to_be_bytes();
        match about_of(self.pid) {
            About::Nothing => Load::new(),
            About::Byte => Load::of(&[low]),
            About::Word => Load::of(&[high, low]),
        }
    }
}

/// How this parameter is told what it is asked about.
pub(crate) fn about_of(pid: u16) -> About
    ensures { result ≡ spec.about_of pid }
{
    match pid {
        0x00E1 | 0x0200 | 0x0201 | 0x0344 | 0x0346 | 0x0348 | 0x0642 | 0x1021 => About::Byte,
        0x0031 | 0x0051 | 0x0121 | 0x1042 => About::Word,
        _ => About::Nothing,
    }
}

/// The first answer to a question.
fn answer_to(answers: &[Answer], sub: u16, pid: u16, about: u16) -> Option<&Answer>
    ensures { option_copied result ≡ spec.answer_to answers.now sub pid about }
{
    answers.iter().find(|answer| {
        let question = answer.question;
        question.sub == sub && (question.pid == pid && question.about == about)
    })
}

/// Whether the fixture answered a question.
pub(crate) fn is_answered(answers: &[Answer], sub: u16, pid: u16, about: u16) -> bool
    ensures { result ≡ spec.is_answered answers.now sub pid about }
{
    answer_to(answers, sub, pid, about).is_some()
}

/// The data of its answer, or no data if it didn't.
pub(crate) fn data_of(answers: &[Answer], sub: u16, pid: u16, about: u16) -> &[u8]
    ensures { result.now ≡ spec.data_of answers.now sub pid about }
{
    match answer_to(answers, sub, pid, about) {
        Some(answer) => answer.data.as_slice(),
        None => &[],
    }
}

/// How long the fixture said that the answer takes, if it didn't answer at once.
pub(crate) fn estimate_of(answers: &[Answer], sub: u16, pid: u16, about: u16) -> Option<u16>
    ensures { result ≡ spec.estimate_of answers.now sub pid about }
{
    match answer_to(answers, sub, pid, about) {
        Some(answer) => answer.estimate,
        None => None,
    }
}

/// The slot at a place, or 0 if there is none.
pub(crate) fn slot_at(slots: &[u8], place: u16) -> u8
    ensures { result ≡ slice_index slots.now place }
{
    let place = place as usize;
    if place < slots.len() { slots[place] } else { 0 }
}

/// The number in two slots.
pub(crate) fn word_at(slots: &[u8], place: u16) -> u16
    requires { place < 60000 }
    ensures { result ≡ spec.word_at slots.now place }
{
    u16::from_be_bytes([slot_at(slots, place), slot_at(slots, place + 1)])
}

/// The number in four slots.
pub(crate) fn long_at(slots: &[u8], place: u16) -> u32
    requires { place < 60000 }
    ensures { result ≡ spec.long_at slots.now place }
{
    u32::from_be_bytes([
        slot_at(slots, place),
        slot_at(slots, place + 1),
        slot_at(slots, place + 2),
        slot_at(slots, place + 3),
    ])
}

/// The number with a sign in a slot.
pub(crate) fn signed_byte_at(slots: &[u8], place: u16) -> i8
    ensures { result ≡ spec.signed_byte_at slots.now place }
{
    slot_at(slots, place).cast_signed()
}

/// The number with a sign in two slots.
pub(crate) fn signed_word_at(slots: &[u8], place: u16) -> i16
    requires { place < 60000 }
    ensures { result ≡ spec.signed_word_at slots.now place }
{
    word_at(slots, place).cast_signed()
}

/// The number with a sign in four slots.
pub(crate) fn signed_long_at(slots: &[u8], place: u16) -> i32
    requires { place < 60000 }
    ensures { result ≡ spec.signed_long_at slots.now place }
{
    long_at(slots, place).cast_signed()
}

/// How many numbers of two slots the data have, as far as they are read.
pub(crate) fn word_count(slots: &[u8]) -> u16
    ensures value { result ≡ spec.word_count slots.now }
    ensures few { result ≤ 1000 }
{
    (slots.len() / 2).min(MOST_WORDS) as u16
}

/// Whether a list of numbers of two slots has this one.
#[tactic(auto, using(crate::proofs::Lists::none_among, crate::proofs::Lists::more_among))]
pub(crate) fn lists(slots: &[u8], word: u16) -> bool
    ensures { result ≡ spec.lists slots.now word }
{
    let mut is_among = false;
    for place in 0..word_count(slots) {
        let is_here = word_at(slots, 2 * place) == word;
        is_among = is_among || is_here;
    }
    is_among
}

/// Whether the root or a sub-device has this parameter, as far as it lists it.
pub(crate) fn has(answers: &[Answer], sub: u16, pid: u16) -> bool
    ensures { result ≡ spec.has answers.now sub pid }
{
    lists(data_of(answers, sub, SUPPORTED_PARAMETERS, 0), pid)
}
