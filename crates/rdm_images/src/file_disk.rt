//! A file as a disk.

ghost use Rattle.std.specs.Prelude.{◌≡◌, ℕ, ◌+◌, ◌≤◌, List, length, take, drop, Some, None, OnOk, IfOk, IfErr, IsOk};
ghost use Rattle.std.specs.Io.KnownBytes.{Appends, Consumes};
ghost use Rattle.rdm_images.specs.Areas.{IsErased};
ghost use Rattle.rdm_images.specs.Disks.{IsDisk, IsTorn, put_in};
ghost use Rattle.rdm_images.specs.Files.{TookAt};

use crate::disk::{DISK_BYTES, Disk};
use crate::disk_memory::DiskMemory;
use crate::memory::MemoryFault;
use std::fs::OpenFile;
use std::io;
use std::io::{Read, Seek, SeekFrom, Write};

/// A file of `DISK_BYTES` bytes as a disk, with a copy of what it holds.
///
/// The copy begins as what the file gives when it is opened or takes when it is made, and whatever is put into the copy the file takes
/// at the same place. That a file which takes bytes at a place holds them there is the system's part: no clause of std's speaks of it.
/// After a write that failed nobody knows what the file holds until it is read again. So each call fails from then on.
#[derive(Drop)]
pub struct FileDisk<F: Read + Write + Seek + OpenFile + Drop> {
    file: F,
    copy: [u8; DISK_BYTES],
    failed: Option<MemoryFault>,
}

/// A file as the memory of images.
pub type FileMemory<F> = DiskMemory<FileDisk<F>>;

impl<F: Read + Write + Seek + OpenFile + Drop> FileDisk<F> {
    /// A file that is open at its front. It fails if the file has fewer bytes than a disk; those behind them don't count.
    pub fn open(mut file: F) -> io::Result<Self>
        ensures fresh { IfOk result (λ disk. disk.failed ≡ None) }
        ensures read { IfOk result (λ disk. Consumes (F.remaining file) (F.remaining disk.file) disk.copy) }
    {
        let mut copy = [0; DISK_BYTES];
        file.read_exact(&mut copy)?;
        Ok(FileDisk {
            file,
            copy,
            failed: None,
        })
    }

    /// A new file, which takes the bytes of a disk that is erased.
    pub fn create(mut file: F) -> io::Result<Self>
        ensures fresh { IfOk result (λ disk. disk.failed ≡ None) }
        ensures erased { IfOk result (λ disk. IsErased disk.copy) }
        ensures written { IfOk result (λ disk. Appends (F.contents file) (F.contents disk.file) disk.copy) }
    {
        let copy = [0xFF; DISK_BYTES];
        file.write_all(&copy)?;
        Ok(FileDisk {
            file,
            copy,
            failed: None,
        })
    }
}

impl<F: Read + Write + Seek + OpenFile + Drop> Disk for FileDisk<F> {
    ghost use Rattle.std.specs.Prelude.{◌≡◌, Some};

    ghost holds = { λ disk. disk.copy };

    ghost told = { λ disk fault. disk.failed ≡ Some fault };

    fn read_at(&mut self, place: usize, buffer: &mut [u8]) -> Result<(), MemoryFault>
        requires within { place + length buffer.old ≤ 73728 }
        ensures read { OnOk result (buffer.new ≡ take (length buffer.old) (drop place self.old.copy)) }
        ensures same { self.new.copy ≡ self.old.copy }
        ensures cause { IfErr result (λ fault. self.new.failed ≡ Some fault) }
        // It fails only if a write has failed.
        ensures ok { self.old.failed ≡ None → IsOk result }
    {
        if let Some(fault) = self.failed {
            return Err(fault);
        }
        buffer.copy_from_slice(&self.copy[place..place + buffer.len()]);
        Ok(())
    }

    fn put_at(&mut self, place: usize, bytes: &[u8]) -> Result<(), MemoryFault>
        requires within { place + length bytes.now ≤ 73728 }
        ensures old { IsDisk self.old.copy }
        ensures new { IsDisk self.new.copy }
        ensures put { OnOk result (self.new.copy ≡ put_in place bytes.now self.old.copy) }
        ensures torn { IsTorn self.old.copy (put_in place bytes.now self.old.copy) self.new.copy }
        ensures cause { IfErr result (λ fault. self.new.failed ≡ Some fault) }
        ensures ok { OnOk result (self.new.failed ≡ None) }
        // The file has taken the same bytes at the same place.
        ensures taken { OnOk result (TookAt F.stream_position F.contents self.old.file self.new.file place bytes.now) }
    {
        is_disk(&self.copy);
        if let Some(fault) = self.failed {
            return Err(fault);
        }
        put(&mut self.copy, place, bytes);
        is_disk(&self.copy);
        match take_at(&mut self.file, place as u64, bytes) {
            Ok(()) => Ok(()),
            Err(error) => {
                let fault = MemoryFault {
                    code: error.raw_os_error().unwrap_or(0).cast_unsigned(),
                };
                self.failed = Some(fault);
                Err(fault)
            }
        }
    }
}

/// The copy has the bytes of a disk: a fact for the proof of what is put into it.
fn is_disk(copy: &[u8])
    requires size { length copy.now ≡ 73728 }
    ensures { IsDisk copy.now }
{}

/// Puts bytes into the copy.
fn put(copy: &mut [u8], place: usize, bytes: &[u8])
    requires within { place + length bytes.now ≤ length copy.old }
    ensures { copy.new ≡ put_in place bytes.now copy.old }
{
    copy[place..place + bytes.len()].copy_from_slice(bytes);
}

/// Lets a file take bytes at a place, and waits until they have reached the disk.
fn take_at<F: Write + Seek + OpenFile>(file: &mut F, place: u64, bytes: &[u8]) -> io::Result<()>
    ensures { OnOk result (TookAt F.stream_position F.contents file.old file.new place bytes.now) }
{
    file.seek(SeekFrom::Start(place))?;
    file.write_all(bytes)?;
    file.sync_data()
}
