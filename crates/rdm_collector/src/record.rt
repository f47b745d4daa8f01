//! The record of what was collected: room for one more, and what is done with.

ghost use Rattle.std.specs.Prelude.{◌≡◌, ◌↔◌, ◌<◌, ◌≤◌, IsErrOf, IsTrue, OnOk, drop, vec_len, vec_capacity};

use crate::sender::PollError;

/// Makes room for the answer of a poll, unless a transaction is open. What was recorded stays.
pub(crate) fn make_room<T: Drop>(recorded: &mut Vec<T>, is_open: bool) -> Result<(), PollError>
    ensures busy { IsErrOf result PollError.Busy ↔ IsTrue is_open }
    ensures room { OnOk result (vec_len recorded.new < vec_capacity recorded.new) }
    ensures items { recorded.new.items ≡ recorded.old.items }
    ensures len { vec_len recorded.new ≡ vec_len recorded.old }
    ensures capacity { vec_capacity recorded.old ≤ vec_capacity recorded.new }
{
    if is_open {
        return Err(PollError::Busy);
    }
    if recorded.reserve(1).is_err() {
        return Err(PollError::OutOfMemory);
    }
    Ok(())
}

/// Forgets the first `count` of what was recorded, or all if there are fewer. Later items take their room.
pub(crate) fn forget<T: Drop>(recorded: &mut Vec<T>, count: usize)
    ensures items { recorded.new.items ≡ drop count recorded.old.items }
    ensures room { vec_capacity recorded.new ≡ vec_capacity recorded.old }
    ensures len { vec_len recorded.new ≤ vec_len recorded.old }
{
    let count = count.min(recorded.len());
    drop(recorded.drain(..count));
}
