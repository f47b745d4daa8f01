//! The queue of messages, of which a newer one may take the place of one that tells of the same.

ghost use Rattle.std.specs.Prelude.{◌≡◌, ◌<◌, length};
ghost use Rattle.std.specs.List.{position};
ghost use Rattle.circular_buffer.specs.Buffer.{buffer};
ghost use Rattle.rdm_outbox.specs.Messages.{tell_of_same, in_place_of_same};

use crate::ring::put;
use circular_buffer::HeapCircularBuffer;
use rdm_params::Message;

/// Puts a message in the place of the first that tells of the same, or behind all if none does. There must be room for one more.
#[tactic(auto, using(crate::proofs::Newest::never_past))]
pub(crate) fn put_newest(queue: &mut HeapCircularBuffer<Message>, message: Message)
    requires { length queue.old.items < queue.old.capacity }
    ensures { queue.new ≡ buffer (in_place_of_same message queue.old.items) queue.old.capacity }
{
    match place_of_same(queue, &message) {
        Some(place) => {
            if let Some(older) = queue.get_mut(place) {
                *older = message;
            }
        }
        None => put(queue, message),
    }
}

/// The place of the first message that tells of the same as this one, if there is one.
fn place_of_same(queue: &HeapCircularBuffer<Message>, message: &Message) -> Option<usize>
    ensures { result ≡ position (tell_of_same message.now) queue.now.items }
{
    queue.iter().position(|other| tell_of_same(message, other))
}

/// Whether two messages tell of the same: of one parameter, of one device, in one class.
fn tell_of_same(message: &Message, other: &Message) -> bool
    ensures { result ≡ tell_of_same message.now other.now }
{
    message.class == other.class && message.pid == other.pid && message.sub == other.sub
}
