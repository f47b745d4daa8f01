//! Laws of what a receiver hands out. Each is the contract of a call that does nothing.

ghost use Rattle.std.specs.Prelude.{◌≡◌, ◌≤◌, ◌+◌, ◌↔◌, ◌++◌, ◌∷◌, [], List, Option, Some, length, map, slice_index, true, ℕ};
ghost use Rattle.rdm_receiver.specs.declared.signal.Signal.{Signal};
ghost use Rattle.rdm_receiver.specs.declared.signal.Signal.TheVariants.{Break, Byte};
ghost use Rattle.rdm_receiver.specs.declared.receiver.Receiver.{Receiver};
ghost use Rattle.rdm_receiver.specs.Packets.{outputs_behind, packets_behind_breaks, packets_in};
ghost use Rattle.rdm_receiver.specs.Receiving.{HasHeard};
ghost use Rattle.rdm_receiver.specs.Signals.{is_packet, since_break};

/// In any list of signals the packets that are handed out, one signal after another, are those that stand behind breaks: in their order,
/// each once, and no other.
pub fn packets_stand_behind_breaks()
    ensures { (signals : List Signal) → packets_in (outputs_behind [] signals) ≡ packets_behind_breaks signals }
{}

/// The bytes that count behind signals are exactly those that stand at their end, behind a break.
pub fn bytes_stand_behind_a_break()
    ensures stand { (signals : List Signal) (bytes : List ℕ) → since_break signals ≡ Some bytes →
        (before : List Signal) × (signals ≡ before ++ Break ∷ map Byte bytes) }
    ensures count { (before : List Signal) (bytes : List ℕ) → since_break (before ++ Break ∷ map Byte bytes) ≡ Some bytes }
{}

/// A packet has two bytes more than its message length says, and so 26 to 257.
pub fn packet_has_its_length()
    ensures { (bytes : List ℕ) → is_packet bytes ≡ true → length bytes ≡ slice_index bytes 2 + 2 }
{}

/// A receiver of zeros, as C makes one, has heard nothing.
pub fn zeros_have_heard_nothing()
    ensures { (receiver : Receiver) → receiver.count ≡ 0 → receiver.state ≡ 0 → HasHeard receiver [] }
{}
