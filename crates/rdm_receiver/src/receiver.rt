//! Packets and levels, cut out of signals.

ghost use Rattle.std.specs.Prelude.{◌≡◌, ◌++◌, ◌∷◌, [], List, ℕ, Option, take};
ghost use Rattle.rdm_receiver.specs.declared.signal.Signal.{Signal};
ghost use Rattle.rdm_receiver.specs.declared.signal.Signal.TheVariants.{Byte};
ghost use Rattle.rdm_receiver.specs.Signals.{output_after, output_since, then_signal};
ghost use Rattle.rdm_receiver.specs.Receiving.{HasHeard, IsBroughtBy, Keeps, may_stand, output_with};

use crate::signal::Signal;
use rdm_frame::standard::{MOST_DMX_SLOTS, MOST_SLOTS, START_CODE, SUB_START_CODE};

/// The START code of DMX512 levels.
const LEVELS_START_CODE: u8 = 0x00;

/// The least message length: that of a packet without parameter data (E1.20 section 6.2.3).
const LEAST_LENGTH: u8 = 24;

/// It waits for a break.
const WAITING: u8 = 0;

/// It collects the bytes of a packet: those that came since the break stand at the front of the room.
const IN_PACKET: u8 = 1;

/// Each byte is a level.
const IN_LEVELS: u8 = 2;

/// What has come with a signal.
#[derive(Clone, Copy, Debug)]
pub enum Received {
    /// No more than the signal.
    Nothing,
    /// A packet of RDM, of so many bytes: 26 to 257.
    Packet(u16),
    /// A level of DMX512: of which slot, 1 to 512, and its value.
    Level(u16, u8),
}

/// Cuts packets and levels out of what a UART hears. It keeps the bytes of one packet. C calls it `felosumay_receiver`, and it has the
/// same layout there: all zeros are a new one.
#[repr(C)]
#[derive(Clone, Copy, Debug)]
pub struct Receiver {
    /// How many bytes of the packet have come, or how many levels.
    count: u16,
    /// What it does with a byte.
    state: u8,
    /// Room for the bytes of a packet.
    packet: [u8; MOST_SLOTS],
}

impl Receiver {
    /// One that has heard nothing, and waits for a break.
    pub fn new() -> Receiver
        ensures { HasHeard result [] }
    {
        Receiver {
            count: 0,
            state: WAITING,
            packet: [0; MOST_SLOTS],
        }
    }

    /// Hears a signal, and says what has come with it: a packet with its last byte. `packet` lends its bytes.
    pub fn receive(&mut self, signal: Signal) -> Received
        ensures heard { (signals : List Signal) → HasHeard self.old signals → HasHeard self.new (signals ++ signal ∷ []) }
        ensures output { (signals : List Signal) → HasHeard self.old signals →
            output_with result self.new.packet ≡ output_after (signals ++ signal ∷ []) }
        ensures brought { IsBroughtBy signal result self.new.packet }
    {
        match signal {
            Signal::Break => {
                self.state = IN_PACKET;
                self.count = 0;
                Received::Nothing
            }
            Signal::Error => {
                self.state = WAITING;
                Received::Nothing
            }
            Signal::Byte(byte) => self.take(byte),
        }
    }

    /// The bytes of the packet that `receive` has told, of which there are so many. They stay until it is called again.
    pub fn packet(&self, count: u16) -> &[u8]
        ensures { result.now ≡ take count self.now.packet }
    {
        let count = usize::from(count).min(MOST_SLOTS);
        &self.packet[..count]
    }

    /// Takes a byte.
    fn take(&mut self, byte: u8) -> Received
        ensures keeps { (bytes : Option (List ℕ)) → Keeps self.old bytes → Keeps self.new (then_signal bytes (Byte byte)) }
        ensures output { (bytes : Option (List ℕ)) → Keeps self.old bytes →
            output_with result self.new.packet ≡ output_since (then_signal bytes (Byte byte)) }
        ensures brought { IsBroughtBy (Byte byte) result self.new.packet }
    {
        match self.state {
            IN_PACKET => self.collect(byte),
            IN_LEVELS => self.count_level(byte),
            _ => Received::Nothing,
        }
    }

    /// Takes a byte of a packet, or the START code behind a break.
    fn collect(&mut self, byte: u8) -> Received
        requires { self.old.state ≡ 1 }
        ensures keeps { (bytes : Option (List ℕ)) → Keeps self.old bytes → Keeps self.new (then_signal bytes (Byte byte)) }
        ensures output { (bytes : Option (List ℕ)) → Keeps self.old bytes →
            output_with result self.new.packet ≡ output_since (then_signal bytes (Byte byte)) }
        ensures brought { IsBroughtBy (Byte byte) result self.new.packet }
    {
        let place = usize::from(self.count);
        if place == 0 && byte == LEVELS_START_CODE {
            self.state = IN_LEVELS;
            return Received::Nothing;
        }
        if place >= MOST_SLOTS || !may_stand(place, byte) {
            self.state = WAITING;
            return Received::Nothing;
        }
        self.packet[place] = byte;
        self.count += 1;
        if place > 2 && place == usize::from(self.packet[2]) + 1 {
            self.state = WAITING;
            return Received::Packet(self.count);
        }
        Received::Nothing
    }

    /// Takes a level.
    fn count_level(&mut self, byte: u8) -> Received
        requires { self.old.state ≡ 2 }
        ensures keeps { (bytes : Option (List ℕ)) → Keeps self.old bytes → Keeps self.new (then_signal bytes (Byte byte)) }
        ensures output { (bytes : Option (List ℕ)) → Keeps self.old bytes →
            output_with result self.new.packet ≡ output_since (then_signal bytes (Byte byte)) }
        ensures brought { IsBroughtBy (Byte byte) result self.new.packet }
    {
        if self.count >= MOST_DMX_SLOTS {
            self.state = WAITING;
            return Received::Nothing;
        }
        self.count += 1;
        Received::Level(self.count, byte)
    }
}

/// Whether a packet may have this byte at this place, from 0, if those before it are right.
fn may_stand(place: usize, byte: u8) -> bool
    ensures { result ≡ may_stand place byte }
{
    match place {
        0 => byte == START_CODE,
        1 => byte == SUB_START_CODE,
        2 => byte >= LEAST_LENGTH,
        _ => true,
    }
}
