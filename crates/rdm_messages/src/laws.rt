//! Laws of streams. Each is the contract of a call that does nothing.

ghost use Rattle.std.specs.Prelude.{◌≡◌, ℕ, List};
ghost use Rattle.std.specs.List.{All};
ghost use Rattle.rdm_messages.specs.Framing.{Message, IsMessage, Holds, bytes_of};

/// A stream of bytes holds one list of messages.
pub fn stream_holds_one_list()
    ensures { (stream : List ℕ) (messages others : List Message) →
        Holds stream messages → Holds stream others → messages ≡ others }
{}

/// Messages that are written, one after another, are read back.
pub fn written_messages_are_read_back()
    ensures { (messages : List Message) → All IsMessage messages → Holds (bytes_of messages) messages }
{}
