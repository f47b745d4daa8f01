//! The values of a virtual fixture, kept in a file over restarts.

use crate::left::tell_left;
use rdm_host::fault::Fault;
use rdm_host::host::Host;
use rdm_images::{AREA_BYTES, DISK_BYTES, DiskMemory, FileDisk, FileMemory, Images, ImagesError};
use rdm_responder::{Responder, RestoreError};
use rdm_widget::LiveFixture;
use std::fs::{OpenFile, OpenOptions};
use std::io::{ErrorKind, Read, Seek, Write};
use std::{fs, io, mem};

/// The key of the images of a virtual fixture: the letters FELO.
const KEY: u32 = 0x4645_4C4F;

/// How many bytes a file of values has.
const FILE_BYTES: u64 = DISK_BYTES as u64;

/// A file of values, and those that were saved last.
#[derive(Drop)]
pub struct Saved<'a, F: Read + Write + Seek + OpenFile + Drop> {
    /// By what name messages tell of it.
    name: &'a str,
    images: Images<FileMemory<F>>,
    /// An area of the file.
    buffer: Vec<u8>,
    /// What was saved last.
    last: Vec<u8>,
    /// What is to be saved.
    next: Vec<u8>,
}

/// Restores the values of a fixture from the file of this name, or makes the file, with the values that it has.
///
/// A file that isn't one of values is refused, and so is one with the values of a fixture of another manufacturer or model.
pub(crate) fn open<'a, H: Host>(
    rt: H,
    name: &'a str,
    live: &mut LiveFixture,
) -> Result<Saved<'a, H::File>, Fault<'a>> {
    match OpenOptions::new().read(true).write(true).open(&rt, name) {
        Ok(file) => restore(rt, name, file, live),
        Err(error) if error.kind() == ErrorKind::NotFound => create(rt, name, live.responder()),
        Err(error) => Err(Fault::Io(name, error)),
    }
}

/// Restores the values of a fixture from a file.
fn restore<'a, H: Host>(
    rt: H,
    name: &'a str,
    file: H::File,
    live: &mut LiveFixture,
) -> Result<Saved<'a, H::File>, Fault<'a>> {
    match file.metadata() {
        Ok(metadata) if metadata.is_file() && metadata.len() == FILE_BYTES => {}
        Ok(_) => return Err(Fault::NotSaved(name)),
        Err(error) => return Err(Fault::Io(name, error)),
    }
    match FileDisk::open(file) {
        Ok(disk) => restore_in(rt, name, DiskMemory::new(disk), live),
        Err(error) => Err(Fault::Io(name, error)),
    }
}

/// Restores the values of a fixture from the areas of a file, and saves them as they are then.
fn restore_in<'a, H: Host>(
    rt: H,
    name: &'a str,
    memory: FileMemory<H::File>,
    live: &mut LiveFixture,
) -> Result<Saved<'a, H::File>, Fault<'a>> {
    let mut saved = Saved::new(rt, name, memory, live.responder())?;
    saved.restore(rt, live)?;
    saved.save(live.responder())?;
    Ok(saved)
}

/// Makes a file with the values of a fixture. It has its name from the moment on that the values are in it.
fn create<'a, H: Host>(
    rt: H,
    name: &'a str,
    responder: &Responder,
) -> Result<Saved<'a, H::File>, Fault<'a>> {
    let unfinished = format!(in rt.alloc(); "{name}.new")?;
    let memory = new_memory(rt, name, unfinished.as_str())?;
    let mut saved = Saved::new(rt, name, memory, responder)?;
    saved.save(responder)?;
    match fs::rename(&rt, unfinished.as_str(), name) {
        Ok(()) => Ok(saved),
        Err(error) => Err(Fault::Io(name, error)),
    }
}

/// Makes the file of a path, with two areas. Messages tell of it by another name.
fn new_memory<'a, H: Host>(
    rt: H,
    name: &'a str,
    path: &str,
) -> Result<FileMemory<H::File>, Fault<'a>> {
    let made = OpenOptions::new()
        .read(true)
        .write(true)
        .create(true)
        .truncate(true)
        .open(&rt, path);
    let disk = match made {
        Ok(file) => FileDisk::create(file),
        Err(error) => Err(error),
    };
    match disk {
        Ok(disk) => Ok(DiskMemory::new(disk)),
        Err(error) => Err(Fault::Io(name, error)),
    }
}

impl<'a, F: Read + Write + Seek + OpenFile + Drop> Saved<'a, F> {
    /// Nothing has been saved in these areas yet that the fixture has.
    fn new<H: Host>(
        rt: H,
        name: &'a str,
        memory: FileMemory<F>,
        responder: &Responder,
    ) -> Result<Saved<'a, F>, Fault<'a>> {
        let buffer = vec![in rt.alloc(); 0; AREA_BYTES]?;
        let last = vec![in rt.alloc(); 0; responder.saved_len()]?;
        let next = vec![in rt.alloc(); 0; responder.saved_len()]?;
        Ok(Saved {
            name,
            images: Images::new(memory, KEY),
            buffer,
            last,
            next,
        })
    }

    /// Restores the values of the fixture from those that the areas hold. What another version has saved and this one doesn't take over is told.
    fn restore<H: Host>(&mut self, rt: H, live: &mut LiveFixture) -> Result<(), Fault<'a>> {
        let Saved {
            name,
            images,
            buffer,
            last: _,
            next,
        } = self;
        let image = match images.load(buffer) {
            Ok(Some(image)) => image,
            _ => return Err(Fault::NotSaved(*name)),
        };
        match live.restore(image) {
            Ok(()) => {
                if live.responder().save_into(next).is_ok() {
                    tell_left(rt, *name, image, next);
                }
                Ok(())
            }
            Err(RestoreError::Length | RestoreError::Altered) => Err(Fault::NotSaved(*name)),
            Err(RestoreError::OfAnother) => Err(Fault::OtherProfile(*name)),
        }
    }

    /// Saves the values of the fixture, if they aren't those that were saved last.
    pub(crate) fn save(&mut self, responder: &Responder) -> Result<(), Fault<'a>> {
        let Saved {
            name,
            images,
            buffer,
            last,
            next,
        } = self;
        if responder.save_into(next).is_err() || next == last {
            return Ok(());
        }
        match images.save(next, buffer) {
            Ok(()) => {
                mem::swap(last, next);
                Ok(())
            }
            Err(ImagesError::Failed(fault)) => {
                let error = io::Error::from_raw_os_error(fault.code.cast_signed());
                Err(Fault::Io(*name, error))
            }
            Err(ImagesError::Buffer | ImagesError::TooLong) => Err(Fault::NotSaved(*name)),
        }
    }
}
