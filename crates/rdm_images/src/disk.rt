//! A disk: what holds bytes, and is written at any place.

use crate::memory::MemoryFault;

/// How many bytes each of the two areas of a disk has. The greatest image of a responder's values, of 35,659 bytes, fits with its head.
pub const AREA_BYTES: usize = 36864;

/// How many bytes a disk has: those of two areas.
pub const DISK_BYTES: usize = 2 * AREA_BYTES;

/// A file, or whatever else holds `DISK_BYTES` bytes and takes others at any place.
///
/// Its clauses say what is assumed of one. A call that is Ok has replaced exactly its bytes, for good. One that fails, or in whose
/// midst power fails, leaves each of these bytes as it was, as it was to become, or between the two; all others stay. A disk whose
/// sectors are written whole or not at all does so, and one that writes byte by byte.
pub trait Disk {
    ghost use Rattle.std.specs.Prelude.{◌≡◌, ℕ, ◌+◌, ◌≤◌, List, length, take, drop, OnOk, IfErr};
    ghost use Rattle.rdm_images.specs.declared.memory.MemoryFault.{MemoryFault as TheFault};
    ghost use Rattle.rdm_images.specs.Disks.{IsDisk, IsTorn, put_in};

    // What it holds.
    ghost holds: { Self → List ℕ };

    // It has told this fault.
    ghost told: { Self → TheFault → Type 0 };

    /// Reads as many bytes as the buffer has, from this place on.
    fn read_at(&mut self, place: usize, buffer: &mut [u8]) -> Result<(), MemoryFault>
        requires within { place + length buffer.old ≤ 73728 }
        ensures read { OnOk result (buffer.new ≡ take (length buffer.old) (drop place (holds self.old))) }
        ensures same { holds self.new ≡ holds self.old }
        ensures cause { IfErr result (λ fault. told self.new fault) };

    /// Puts bytes at this place, over those that are there, and waits until they are there for good.
    fn put_at(&mut self, place: usize, bytes: &[u8]) -> Result<(), MemoryFault>
        requires within { place + length bytes.now ≤ 73728 }
        ensures old { IsDisk (holds self.old) }
        ensures new { IsDisk (holds self.new) }
        ensures put { OnOk result (holds self.new ≡ put_in place bytes.now (holds self.old)) }
        ensures torn { IsTorn (holds self.old) (put_in place bytes.now (holds self.old)) (holds self.new) }
        ensures cause { IfErr result (λ fault. told self.new fault) };
}
