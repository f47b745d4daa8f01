//! Two areas on a disk.

ghost use Rattle.std.specs.Prelude.{◌≡◌};
ghost use Rattle.rdm_images.specs.Disks.{areas_in, place_of};

use crate::disk::{AREA_BYTES, Disk};
use crate::memory::{Memory, MemoryFault, Side};

/// A disk as the memory of images: two areas, one behind the other.
///
/// It holds nothing but the disk. So it is the same memory after a restart, over whatever the disk holds then.
#[derive(Drop)]
pub struct DiskMemory<D: Disk + Drop> {
    disk: D,
}

impl<D: Disk + Drop> DiskMemory<D> {
    /// The areas of this disk, as they are.
    pub fn new(disk: D) -> Self
        ensures { result.disk ≡ disk }
    {
        DiskMemory { disk }
    }

    /// The disk.
    pub fn into_disk(self) -> D
        ensures { result ≡ self.disk }
    {
        self.disk
    }
}

impl<D: Disk + Drop> Memory for DiskMemory<D> {
    ghost area = { λ memory side. areas_in (D.holds memory.disk) side };

    ghost size = { λ _. 36864 };

    ghost told = { λ memory fault. D.told memory.disk fault };

    fn area_size(&self) -> usize {
        AREA_BYTES
    }

    fn read(&mut self, side: Side, buffer: &mut [u8]) -> Result<(), MemoryFault> {
        self.disk.read_at(place(side), buffer)
    }

    fn erase(&mut self, side: Side) -> Result<(), MemoryFault> {
        self.disk.put_at(place(side), &[0xFF; AREA_BYTES])
    }

    fn write(&mut self, side: Side, bytes: &[u8]) -> Result<(), MemoryFault> {
        self.disk.put_at(place(side), bytes)
    }
}

/// Where an area begins.
fn place(side: Side) -> usize
    ensures { result ≡ place_of side }
{
    match side {
        Side::First => 0,
        Side::Second => AREA_BYTES,
    }
}
