//! What goes wrong with a transaction, as the line of its request reads.

ghost use Rattle.std.specs.Prelude.{◌≡◌};
ghost use Rattle.rdm_trace.specs.Reading.{fault_in, lost_in, altered_in};

use crate::numbers;
use crate::words::first_word;
use rdm_frame::Fault;

/// What goes wrong, in the words of a script.
#[tactic(auto, unfolding(crate::specs::Reading::fault_in))]
pub(crate) fn fault_in(words: &[u8]) -> Option<Fault>
    ensures { result ≡ fault_in words.now }
{
    let (name, rest) = first_word(words);
    if rest.is_empty() {
        lost_in(name)
    } else {
        altered_in(name, rest)
    }
}

/// Which frame is lost, if one is.
fn lost_in(name: &[u8]) -> Option<Fault>
    ensures { result ≡ lost_in name.now }
{
    if name.is_empty() {
        Some(Fault::None)
    } else if name == b"lost-request".as_slice() {
        Some(Fault::LostRequest)
    } else if name == b"lost-reply".as_slice() {
        Some(Fault::LostReply)
    } else {
        None
    }
}

/// Which slot of which frame is raised, and by how much.
#[tactic(auto, unfolding(crate::specs::Reading::altered_in))]
fn altered_in(name: &[u8], words: &[u8]) -> Option<Fault>
    ensures { result ≡ altered_in name.now words.now }
{
    let (slot, raise) = first_word(words);
    let slot = numbers::word_in(slot)?;
    let raise = numbers::byte_in(raise)?;
    if name == b"bad-request".as_slice() {
        Some(Fault::BadRequest(slot, raise))
    } else if name == b"bad-reply".as_slice() {
        Some(Fault::BadReply(slot, raise))
    } else {
        None
    }
}
