//! Finding the answer in what was read.

ghost use Rattle.std.specs.Prelude.{◌≡◌, ◌≤◌, ◌<◌, length, drop, None, Some, if◌then◌else◌};
ghost use Rattle.rdm_messages.specs.Framing.{IsUnfinished, message_in};
ghost use Rattle.rdm_interface.specs.Answers.{belongs};
ghost use Rattle.rdm_interface.specs.Exchanges.{IsNext};

use crate::answer::Answer;
use crate::wanted::Wanted;
use rdm_messages::{FRAME_BYTES, Front, MessageView, Packet, front_of, rest_of};

/// What was found in a buffer.
#[derive(Debug, Drop)]
pub(crate) struct Found {
    /// How many bytes are done with.
    done: usize,
    /// The message that is waited for, if it was there: it ends where these bytes do.
    answer: Option<Answer>,
}

/// Takes all bytes that are done with from those that are held: up to the message that is waited for, or all but the beginning
/// of a message.
pub(crate) fn take_answer(held: &mut Packet, wanted: &Wanted<'_>) -> Option<Answer>
    ensures next { IsNext (belongs wanted.now) held.old result held.new }
    ensures searched { result ≡ None → IsUnfinished held.new }
    ensures room { length held.new < 605 }
{
    let Found { done, answer } = find_answer(held.as_slice(), wanted);
    *held = rest_of(held, done);
    answer
}

/// Looks for the message that is waited for.
fn find_answer(bytes: &[u8], wanted: &Wanted<'_>) -> Found
    ensures next { IsNext (belongs wanted.now) bytes.now result.answer (drop result.done bytes.now) }
    ensures within { result.done ≤ length bytes.now }
    ensures unfinished { result.answer ≡ None → IsUnfinished (drop result.done bytes.now) }
{
    let mut done = 0;
    while done < bytes.len() {
        let Found {
            done: count,
            answer,
        } = front_answer(&bytes[done..], wanted);
        match answer {
            Some(answer) => {
                return Found {
                    done: done + count,
                    answer: Some(answer),
                };
            }
            None => {
                if count == 0 {
                    return Found { done, answer: None };
                }
                done += count;
            }
        }
    }
    Found { done, answer: None }
}

/// Looks whether the message at the front is the one that is waited for, and else passes over it, or over a byte with which no
/// message begins. Nothing is done with if a message begins of which more must be read.
fn front_answer(bytes: &[u8], wanted: &Wanted<'_>) -> Found
    ensures next { IsNext (belongs wanted.now) bytes.now result.answer (drop result.done bytes.now) }
    ensures within { result.done ≤ length bytes.now }
    ensures unfinished { result.answer ≡ None → result.done ≡ 0 → IsUnfinished bytes.now }
{
    match front_of(bytes) {
        Front::Unfinished => Found {
            done: 0,
            answer: None,
        },
        Front::Stray => Found {
            done: 1,
            answer: None,
        },
        Front::Whole(message) => Found {
            done: message.body.len() + FRAME_BYTES,
            answer: claimed(&message, wanted),
        },
    }
}

/// The message, if it is the one that is waited for.
fn claimed(message: &MessageView<'_>, wanted: &Wanted<'_>) -> Option<Answer>
    requires { length message.now.body.now ≤ 600 }
    ensures { result ≡ (if belongs wanted.now (message_in message.now) then Some (message_in message.now) else None) }
{
    if wanted.belongs(message) {
        Some(Answer::of(message))
    } else {
        None
    }
}
