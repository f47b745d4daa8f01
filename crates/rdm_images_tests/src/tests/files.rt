//! Values that are kept in a file.

use super::KEY;
use rdm_images::{AREA_BYTES, DiskMemory, FileDisk, FileMemory, Images, ImagesError};
use std::fs::{File, OpenOptions};
use std::test::Fail;
use std::{fs, io};

const NAME: &str = "rdm_images_tests_values";

/// What is saved, with a restart before each, where the image of it begins in the file, and what is loaded before.
type Save = (&'static [u8], usize, Option<&'static [u8]>);

const SAVES: &[Save] = &[
    (b"first", 0, None),
    (b"second", AREA_BYTES, Some(b"first")),
    (b"", 0, Some(b"second")),
    (b"fourth", AREA_BYTES, Some(b"")),
];

/// The images that the file holds, as after a restart.
fn restarted(rt: &HostRuntime) -> io::Result<Images<FileMemory<File>>> {
    let file = OpenOptions::new().read(true).write(true).open(rt, NAME)?;
    Ok(Images::new(DiskMemory::new(FileDisk::open(file)?), KEY))
}

#[test]
fn a_file_keeps_values_over_restarts(rt: HostRuntime) -> Result<(), Fail> {
    FileDisk::create(File::create(&rt, NAME)?)?;
    for save in SAVES {
        let told = saved(&rt, save)?;
        assert!(rt; told == (true, true), "{save:?}");
    }
    fs::remove_file(&rt, NAME)?;
    Ok(())
}

/// Whether the values before were loaded after a restart, and whether these were saved where they should be.
fn saved(rt: &HostRuntime, save: &Save) -> Result<(bool, bool), Fail> {
    let (values, place, last) = *save;
    let is_loaded = is_loaded_and_saved(restarted(rt)?, values, last)?;
    let file = fs::read(rt, NAME)?;
    Ok((
        is_loaded,
        stands_at(file.as_slice(), place.saturating_add(12), values),
    ))
}

/// Saves values, and says whether others were loaded before.
fn is_loaded_and_saved(
    mut images: Images<FileMemory<File>>,
    values: &[u8],
    last: Option<&[u8]>,
) -> Result<bool, ImagesError> {
    let mut buffer = [0; AREA_BYTES];
    let is_loaded = images.load(&mut buffer)? == last;
    images.save(values, &mut buffer)?;
    Ok(is_loaded)
}

/// Whether a file of two areas has these values at a place.
fn stands_at(file: &[u8], begin: usize, values: &[u8]) -> bool {
    file.len() == 2 * AREA_BYTES
        && file
            .get(begin..)
            .is_some_and(|rest| rest.starts_with(values))
}
