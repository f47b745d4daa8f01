//! The receiver, as C calls it: a plain struct, with no handle and no memory behind it. Zeros are a new one
//! (`rdm_receiver::zeros_have_heard_nothing`).

ghost use Rattle.std.specs.Prelude.{◌++◌, ◌∷◌, [], List};
ghost use Rattle.rdm_receiver.specs.declared.signal.Signal.{Signal};
ghost use Rattle.rdm_receiver.specs.declared.signal.Signal.TheVariants.{Break, Byte, Error};
ghost use Rattle.rdm_receiver.specs.Signals.{output_after};
ghost use Rattle.rdm_receiver.specs.Receiving.{HasHeard};
ghost use Rattle.rdm_c.specs.Receivers.{IsInRoom, ReceivedTold};

use rdm_receiver::{Received, Receiver, Signal};

/// Hears a break. Nothing comes with it.
#[unsafe(no_mangle)]
pub extern "C" fn felosumay_receiver_break(receiver: &mut Receiver)
    ensures { (signals : List Signal) → HasHeard receiver.old signals → HasHeard receiver.new (signals ++ Break ∷ []) }
{
    let _ = receiver.receive(Signal::Break);
}

/// Hears that a byte didn't come whole, or was lost. Nothing comes with it.
#[unsafe(no_mangle)]
pub extern "C" fn felosumay_receiver_error(receiver: &mut Receiver)
    ensures { (signals : List Signal) → HasHeard receiver.old signals → HasHeard receiver.new (signals ++ Error ∷ []) }
{
    let _ = receiver.receive(Signal::Error);
}

/// Hears a byte, and tells what has come with it: 0 for nothing, 1 for a packet, which stands at the front of the receiver's room and has
/// `number` bytes, and 2 for a level, which is the byte, of the slot `number`.
#[unsafe(no_mangle)]
pub extern "C" fn felosumay_receiver_byte(receiver: &mut Receiver, byte: u8, number: &mut u16) -> u8
    ensures heard { (signals : List Signal) → HasHeard receiver.old signals → HasHeard receiver.new (signals ++ Byte byte ∷ []) }
    ensures told { (signals : List Signal) → HasHeard receiver.old signals →
        ReceivedTold result number.new byte receiver.new.packet (output_after (signals ++ Byte byte ∷ [])) }
    ensures room { IsInRoom result number.new }
{
    match receiver.receive(Signal::Byte(byte)) {
        Received::Nothing => {
            *number = 0;
            0
        }
        Received::Packet(count) => {
            *number = count;
            1
        }
        Received::Level(slot, _) => {
            *number = slot;
            2
        }
    }
}
