//! What the words behind a command or a poll say of the bus.

ghost use Rattle.std.specs.Prelude.{◌≡◌, map};
ghost use Rattle.rdm_script.specs.Grammar.{fault_in, lost_in, altered_in, raise_in};

use super::decimals;
use rdm_bus::Fault;

/// What goes wrong: nothing if there are no words.
#[tactic(auto, unfolding(crate::specs::Grammar::fault_in))]
pub(crate) fn fault_in(words: &[&[u8]]) -> Option<Fault>
    ensures { result ≡ fault_in (map (λ word. word.now) words.now) }
{
    match words {
        [] => Some(Fault::None),
        [name] => lost_in(name),
        [name, slot, raise] => altered_in(name, slot, raise),
        _ => None,
    }
}

/// Which of the two frames of a transaction is lost.
pub(crate) fn lost_in(name: &[u8]) -> Option<Fault>
    ensures { result ≡ lost_in name.now }
{
    if name == b"lost-request".as_slice() {
        Some(Fault::LostRequest)
    } else if name == b"lost-reply".as_slice() {
        Some(Fault::LostReply)
    } else {
        None
    }
}

/// Which slot of which frame is raised, and by how much.
#[tactic(auto, unfolding(crate::specs::Grammar::altered_in))]
fn altered_in(name: &[u8], slot: &[u8], raise: &[u8]) -> Option<Fault>
    ensures { result ≡ altered_in name.now slot.now raise.now }
{
    let slot = u16::from(decimals::byte_in(slot)?);
    let raise = raise_in(raise)?;
    if name == b"bad-request".as_slice() {
        Some(Fault::BadRequest(slot, raise))
    } else if name == b"bad-reply".as_slice() {
        Some(Fault::BadReply(slot, raise))
    } else {
        None
    }
}

/// By how much a slot is raised: by 1 to 255.
#[tactic(auto, unfolding(crate::specs::Grammar::raise_in))]
pub(crate) fn raise_in(word: &[u8]) -> Option<u8>
    ensures { result ≡ raise_in word.now }
{
    let raise = decimals::byte_in(word)?;
    if raise == 0 { None } else { Some(raise) }
}
