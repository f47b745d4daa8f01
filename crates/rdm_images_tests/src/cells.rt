//! A memory that loses power.

ghost use Rattle.std.specs.Prelude.{◌≡◌, ◌≤◌, ◌++◌, length, drop, OnOk, IfErr, None, IfSome, IsSome, MatchOption};
ghost use Rattle.rdm_images.specs.Areas.{Rises, IsErased};

use rdm_images::{Memory, MemoryFault, Side};

/// How many bytes an area has.
pub const AREA: usize = 64;

/// What is told where there is no power.
pub const NO_POWER: MemoryFault = MemoryFault { code: 1 };

/// What is written into an area to erase it.
const ERASED: [u8; AREA] = [0xFF; AREA];

/// Two areas in a memory that loses power: what was being done is left as it is then, and every later call fails and changes nothing.
#[derive(Clone, Copy, Debug)]
pub struct Cells {
    /// What the first area holds.
    pub first: [u8; AREA],
    /// What the second area holds.
    pub second: [u8; AREA],
    /// How many bytes can be erased or written before power fails, or `None` where it has failed.
    pub left: Option<usize>,
    /// The byte at which power fails is left so much higher than it was, where it was to be erased, or than it was to become.
    pub half: u8,
}

impl Cells {
    /// What the power is enough for: so many bytes, and how far the one behind them. Where it has failed, nothing.
    fn power(&self) -> (usize, u8)
        ensures { MatchOption self.now.left (result ≡ (0, 0)) (λ left. result ≡ (left, self.now.half)) }
    {
        match self.left {
            Some(left) => (left, self.half),
            None => (0, 0),
        }
    }

    /// So many bytes were to be erased or written.
    fn spend(&mut self, count: usize) -> Result<(), MemoryFault>
        ensures enough { OnOk result (IfSome self.old.left (λ left. count ≤ left)) }
        ensures on { OnOk result (IsSome self.old.left) }
        ensures told { IfErr result (λ fault. (self.new.left ≡ None) × (fault ≡ record { code = 1 })) }
        ensures first { self.new.first ≡ self.old.first }
        ensures second { self.new.second ≡ self.old.second }
    {
        self.left = self.left.and_then(|left| left.checked_sub(count));
        match self.left {
            Some(_) => Ok(()),
            None => Err(NO_POWER),
        }
    }
}

impl Memory for Cells {
    ghost use Rattle.std.specs.Prelude.{◌≡◌, None};
    ghost use Rattle.rdm_images_tests.specs.Sides.{area_of};

    ghost area = { λ cells side. area_of cells.first cells.second side };

    ghost size = { λ _. 64 };

    ghost told = { λ cells fault. (cells.left ≡ None) × (fault ≡ record { code = 1 }) };

    fn area_size(&self) -> usize {
        AREA
    }

    fn read(&mut self, side: Side, buffer: &mut [u8]) -> Result<(), MemoryFault> {
        if self.left.is_none() {
            return Err(NO_POWER);
        }
        match side {
            Side::First => buffer.copy_from_slice(&self.first),
            Side::Second => buffer.copy_from_slice(&self.second),
        }
        Ok(())
    }

    fn erase(&mut self, side: Side) -> Result<(), MemoryFault> {
        let (left, half) = self.power();
        match side {
            Side::First => erase_front(&mut self.first, &ERASED, left, half),
            Side::Second => erase_front(&mut self.second, &ERASED, left, half),
        }
        self.spend(AREA)
    }

    fn write(&mut self, side: Side, bytes: &[u8]) -> Result<(), MemoryFault> {
        let (left, half) = self.power();
        match side {
            Side::First => write_front(&mut self.first, bytes, left, half),
            Side::Second => write_front(&mut self.second, bytes, left, half),
        }
        self.spend(bytes.len())
    }
}

/// What isn't touched stays as it is: a fact for the proof of what is.
fn stays(area: &[u8])
    ensures { Rises area.now area.now }
{}

/// Makes an area these bytes, which are erased, or as many of it as are left, and then one halfway.
fn erase_front(area: &mut [u8], bytes: &[u8], left: usize, half: u8)
    requires room { length area.old ≡ length bytes.now }
    requires erased { IsErased bytes.now }
    ensures erased { length area.old ≤ left → IsErased area.new }
    ensures torn { Rises area.old area.new }
{
    stays(area);
    if area.len() <= left {
        area.copy_from_slice(bytes);
        return;
    }
    let midst = area[left].saturating_add(half);
    area[..left].copy_from_slice(&bytes[..left]);
    area[left] = midst;
}

/// Writes bytes at the front of an area that is erased, or as many of them as are left, and then one halfway.
fn write_front(area: &mut [u8], bytes: &[u8], left: usize, half: u8)
    requires room { length bytes.now ≤ length area.old }
    requires erased { IsErased area.old }
    ensures written { length bytes.now ≤ left → area.new ≡ bytes.now ++ drop (length bytes.now) area.old }
    ensures torn { Rises (bytes.now ++ drop (length bytes.now) area.old) area.new }
{
    if bytes.len() <= left {
        area[..bytes.len()].copy_from_slice(bytes);
        return;
    }
    area[..left].copy_from_slice(&bytes[..left]);
    area[left] = bytes[left].saturating_add(half);
}
