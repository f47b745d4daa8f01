//! Two images in a memory, of which the older is replaced.

ghost use Rattle.std.specs.Prelude.{◌≡◌, ◌≢◌, ◌↔◌, ◌⊎◌, ◌+◌, ◌<◌, ◌≤◌, ◌^◌, length, OnOk, OnErr, IfOk, IsErrOf, MatchOption, Option, Some, None, Err, IfErr};
ghost use Rattle.rdm_images.specs.declared.memory.Side.{Side as TheSide};
ghost use Rattle.rdm_images.specs.declared.memory.MemoryFault.{MemoryFault as TheFault};
ghost use Rattle.rdm_images.specs.Areas.{other, loaded, newest, said_of, AreSound, IsSound, IsErased};
ghost use Rattle.rdm_images.specs.Reading.{held, saved};

use crate::choosing::{newest_image, next_image};
use crate::decoding::decode_image;
use crate::encoding::encode_image;
use crate::image::{HEADER_BYTES, Image, MOST_PAYLOAD};
use crate::memory::{Memory, MemoryFault, Side};
use thiserror::Error;

/// Why values weren't saved or loaded.
#[derive(Clone, Copy, Debug, PartialEq, Eq, Error)]
pub enum ImagesError {
    /// The buffer isn't of the size of an area. Nothing was done.
    #[error("the buffer isn't of the size of an area")]
    Buffer,
    /// The payload is longer than 65535 bytes, or than an area less 12. Nothing was done.
    #[error("the values are longer than an area")]
    TooLong,
    /// The memory failed.
    #[error("{0}")]
    Failed(MemoryFault),
}

impl From<MemoryFault> for ImagesError {
    ghost use Rattle.std.specs.Prelude.{◌≡◌};
    ghost use Rattle.rdm_images.specs.declared.images.ImagesError.TheVariants.{Failed};

    ghost from_gives = { λ fault e. e ≡ Failed fault };

    fn from(fault: MemoryFault) -> ImagesError {
        ImagesError::Failed(fault)
    }
}

/// Two images in a memory: the newest values, and those before them, or what is left of them.
#[derive(Drop)]
pub struct Images<M: Memory + Drop> {
    memory: M,
    key: u32,
}

impl<M: Memory + Drop> Images<M> {
    /// The images in this memory whose key is this number: a fingerprint of what the values are of, such as a profile. Images
    /// of another key count as none.
    pub fn new(memory: M, key: u32) -> Self
        ensures memory { result.memory ≡ memory }
        ensures key { result.key ≡ key }
    {
        Images { memory, key }
    }

    /// The memory.
    pub fn into_memory(self) -> M
        ensures { result ≡ self.memory }
    {
        self.memory
    }

    /// Erases both areas: nothing is loaded then. A memory that nobody has erased yet is formatted once, before its first save;
    /// a call that fails is made again.
    pub fn format(&mut self) -> Result<(), MemoryFault>
        ensures erased { OnOk result ((s : TheSide) → IsErased (M.area self.new.memory s)) }
        ensures none { OnOk result (loaded self.new.key (M.area self.new.memory) ≡ None) }
        // What is saved from now on is kept over power failures, as the clause `whole` of a save says.
        ensures sound { OnOk result (AreSound (M.area self.new.memory)) }
        ensures torn { AreSound (M.area self.old.memory) → AreSound (M.area self.new.memory) }
        ensures key { self.new.key ≡ self.old.key }
        ensures size { M.size self.new.memory ≡ M.size self.old.memory }
        ensures cause { IfErr result (λ fault. M.told self.new.memory fault) }
    {
        self.memory.erase(Side::First)?;
        self.memory.erase(Side::Second)
    }

    /// The values that were saved last, or `None` if there are none of this key. They are put into the buffer, which must be of
    /// the size of an area.
    pub fn load<'b>(&mut self, buffer: &'b mut [u8]) -> Result<Option<&'b [u8]>, ImagesError>
        ensures loaded { IfOk result (λ found. MatchOption found
            (loaded self.old.key (M.area self.old.memory) ≡ None)
            (λ payload. loaded self.old.key (M.area self.old.memory) ≡ Some payload.now)) }
        ensures same { (s : TheSide) → M.area self.new.memory s ≡ M.area self.old.memory s }
        ensures key { self.new.key ≡ self.old.key }
        ensures size { M.size self.new.memory ≡ M.size self.old.memory }
        ensures buffer { IsErrOf result ImagesError.Buffer ↔ (length buffer.entry.now ≢ M.size self.old.memory) }
        ensures long { IsErrOf result ImagesError.TooLong → ⊥ }
        ensures untouched { IsErrOf result ImagesError.Buffer → self.new ≡ self.old }
        ensures cause { (fault : TheFault) → result ≡ Err (ImagesError.Failed fault) → M.told self.new.memory fault }
    {
        match self.find(buffer)? {
            None => Ok(None),
            Some((side, image)) => {
                self.memory.read(side, buffer)?;
                Ok(Some(&buffer[HEADER_BYTES..HEADER_BYTES + image.length as usize]))
            }
        }
    }

    /// Saves these values: their image takes the place of the older one. The buffer must be of the size of an area; what it
    /// holds is overwritten.
    pub fn save(&mut self, payload: &[u8], buffer: &mut [u8]) -> Result<(), ImagesError>
        // After a save that is over it is the new values that are loaded.
        ensures saved { OnOk result (loaded self.new.key (M.area self.new.memory) ≡ Some payload.now) }
        // If the memory failed, at whatever moment, it is the old ones or the new, whole. So it is if power failed.
        ensures whole { OnErr result (AreSound (M.area self.old.memory)
            → (loaded self.new.key (M.area self.new.memory) ≡ loaded self.old.key (M.area self.old.memory))
            ⊎ (loaded self.new.key (M.area self.new.memory) ≡ Some payload.now)) }
        // What it leaves is again such as the clause before asks for.
        ensures sound { AreSound (M.area self.old.memory) → AreSound (M.area self.new.memory) }
        ensures key { self.new.key ≡ self.old.key }
        ensures size { M.size self.new.memory ≡ M.size self.old.memory }
        ensures buffer { IsErrOf result ImagesError.Buffer ↔ (length buffer.old ≢ M.size self.old.memory) }
        ensures long { IsErrOf result ImagesError.TooLong
            ↔ ((length buffer.old ≡ M.size self.old.memory)
            × ((2 ^ 16 ≤ length payload.now) ⊎ (M.size self.old.memory < 12 + length payload.now))) }
        ensures untouched { IsErrOf result ImagesError.Buffer ⊎ IsErrOf result ImagesError.TooLong → self.new ≡ self.old }
        ensures cause { (fault : TheFault) → result ≡ Err (ImagesError.Failed fault) → M.told self.new.memory fault }
    {
        if buffer.len() != self.memory.area_size() {
            return Err(ImagesError::Buffer);
        }
        if payload.len() > MOST_PAYLOAD || buffer.len() < HEADER_BYTES + payload.len() {
            return Err(ImagesError::TooLong);
        }
        let found = self.find(buffer)?;
        let next = next_image(found);
        self.replace(next.side, next.counter, payload, buffer)
    }

    /// Where the newest image is, and what its header says. The buffer holds one area or the other then.
    fn find(&mut self, buffer: &mut [u8]) -> Result<Option<(Side, Image)>, ImagesError>
        ensures found { IfOk result (λ found. found ≡ said_of (newest self.old.key (M.area self.old.memory))) }
        ensures same { (s : TheSide) → M.area self.new.memory s ≡ M.area self.old.memory s }
        ensures key { self.new.key ≡ self.old.key }
        ensures size { M.size self.new.memory ≡ M.size self.old.memory }
        ensures buffer { IsErrOf result ImagesError.Buffer ↔ (length buffer.old ≢ M.size self.old.memory) }
        ensures long { IsErrOf result ImagesError.TooLong → ⊥ }
        ensures untouched { IsErrOf result ImagesError.Buffer → self.new ≡ self.old }
        ensures cause { (fault : TheFault) → result ≡ Err (ImagesError.Failed fault) → M.told self.new.memory fault }
    {
        if buffer.len() != self.memory.area_size() {
            return Err(ImagesError::Buffer);
        }
        self.memory.read(Side::First, buffer)?;
        let first = decode_image(self.key, buffer).ok();
        self.memory.read(Side::Second, buffer)?;
        let second = decode_image(self.key, buffer).ok();
        Ok(newest_image(first, second))
    }

    /// Writes an image into an area, which is erased before.
    fn replace(
        &mut self,
        side: Side,
        counter: u16,
        payload: &[u8],
        buffer: &mut [u8],
    ) -> Result<(), ImagesError>
        requires short { length payload.now < 2 ^ 16 }
        requires room { 12 + length payload.now ≤ length buffer.old }
        requires size { length buffer.old ≡ M.size self.old.memory }
        ensures written { OnOk result (held self.old.key (M.area self.new.memory side) ≡ Some (saved counter payload.now)) }
        ensures torn { OnErr result (IsSound (M.area self.old.memory side)
            → (held self.old.key (M.area self.new.memory side) ≡ None)
            ⊎ ((held self.old.key (M.area self.new.memory side) ≡ held self.old.key (M.area self.old.memory side))
            ⊎ (held self.old.key (M.area self.new.memory side) ≡ Some (saved counter payload.now)))) }
        ensures sound { IsSound (M.area self.old.memory side) → IsSound (M.area self.new.memory side) }
        ensures same { M.area self.new.memory (other side) ≡ M.area self.old.memory (other side) }
        ensures key { self.new.key ≡ self.old.key }
        ensures kept { M.size self.new.memory ≡ M.size self.old.memory }
        ensures buffer { IsErrOf result ImagesError.Buffer → ⊥ }
        ensures long { IsErrOf result ImagesError.TooLong → ⊥ }
        ensures cause { (fault : TheFault) → result ≡ Err (ImagesError.Failed fault) → M.told self.new.memory fault }
    {
        let image = &mut buffer[..HEADER_BYTES + payload.len()];
        encode_image(self.key, counter, payload, image);
        self.memory.erase(side)?;
        self.memory.write(side, image)?;
        Ok(())
    }
}
