//! The memory of the firmware in which images are kept.

use thiserror::Error;

/// One of the two areas of a memory. They share no sector: what is done to one leaves the other as it is.
#[derive(Clone, Copy, Debug, PartialEq, Eq)]
pub enum Side {
    /// The area that a new memory is written in first.
    First,
    /// The other one.
    Second,
}

/// The memory failed, for a reason to which it gives a number of its own.
#[derive(Clone, Copy, Debug, PartialEq, Eq, Error)]
#[error("the memory failed: {code}")]
pub struct MemoryFault {
    /// The memory's own number for the reason.
    pub code: u32,
}

/// Two areas of equal size, in flash, an EEPROM or a file: each is read whole, erased whole, and written when it is erased.
///
/// Its clauses say what is assumed of a memory. A call that ends with an error, or in whose midst power fails, leaves each byte of
/// its area between what it was to become and what is higher: an erase leaves each byte as it was or raised, up to 0xFF; a write
/// leaves each byte as it is given or higher, as those that weren't reached are, at 0xFF still. The other area stays as it is.
///
/// Power that fails is a call that fails, after which each call fails and changes nothing. So what holds whenever a call fails
/// holds at any moment at which power may fail.
pub trait Memory {
    ghost use Rattle.std.specs.Prelude.{◌≡◌, ℕ, ◌≤◌, List, ◌++◌, length, drop, OnOk, IfErr};
    ghost use Rattle.rdm_images.specs.declared.memory.Side.{Side as TheSide};
    ghost use Rattle.rdm_images.specs.declared.memory.MemoryFault.{MemoryFault as TheFault};
    ghost use Rattle.rdm_images.specs.Areas.{other, Rises, IsErased};

    // What each area holds.
    ghost area: { Self → TheSide → List ℕ };

    // How many bytes an area has.
    ghost size: { Self → ℕ };

    // It has told this fault. Where a memory doesn't keep what it told, that is so of every fault.
    ghost told: { Self → TheFault → Type 0 };

    /// How many bytes an area has.
    fn area_size(&self) -> usize
        ensures { result ≡ size self.now };

    /// Reads an area whole.
    fn read(&mut self, side: Side, buffer: &mut [u8]) -> Result<(), MemoryFault>
        requires { length buffer.old ≡ size self.old }
        ensures bytes { OnOk result (buffer.new ≡ area self.old side) }
        ensures same { (s : TheSide) → area self.new s ≡ area self.old s }
        ensures size { size self.new ≡ size self.old }
        ensures cause { IfErr result (λ fault. told self.new fault) };

    /// Erases an area: each byte is 0xFF then.
    fn erase(&mut self, side: Side) -> Result<(), MemoryFault>
        ensures erased { OnOk result (IsErased (area self.new side)) }
        ensures torn { Rises (area self.old side) (area self.new side) }
        ensures same { area self.new (other side) ≡ area self.old (other side) }
        ensures size { size self.new ≡ size self.old }
        ensures cause { IfErr result (λ fault. told self.new fault) };

    /// Writes bytes at the front of an area that is erased.
    fn write(&mut self, side: Side, bytes: &[u8]) -> Result<(), MemoryFault>
        requires room { length bytes.now ≤ size self.old }
        requires erased { IsErased (area self.old side) }
        ensures written { OnOk result (area self.new side ≡ bytes.now ++ drop (length bytes.now) (area self.old side)) }
        ensures torn { Rises (bytes.now ++ drop (length bytes.now) (area self.old side)) (area self.new side) }
        ensures same { area self.new (other side) ≡ area self.old (other side) }
        ensures size { size self.new ≡ size self.old }
        ensures cause { IfErr result (λ fault. told self.new fault) };
}
