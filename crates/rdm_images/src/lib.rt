//! Values that are kept over power failures: the format of one image, and two images in a memory of the firmware's.
//!
//! `encode_image` writes the one text of an image, and `decode_image` reads exactly such texts. `Images` keeps two of them, in two
//! areas of a `Memory`. Power may fail at any moment: what is loaded next is the old values or the new, whole. `DiskMemory` is such a
//! memory on a `Disk`, and `FileDisk` a file as a disk. Firmware that calls its memory itself, such as a program in C, asks `newest_image`,
//! `next_image` and `image_header` what to load, erase and write.
//!
//! It allocates nothing.
#![tactic(auto)]

mod choosing;
mod decoding;
mod disk;
mod disk_memory;
mod encoding;
mod file_disk;
mod image;
mod images;
mod laws;
mod memory;

pub use choosing::{NextImage, newest_image, next_image};
pub use decoding::{ImageError, decode_image};
pub use disk::{AREA_BYTES, DISK_BYTES, Disk};
pub use disk_memory::DiskMemory;
pub use encoding::{encode_image, image_header};
pub use file_disk::{FileDisk, FileMemory};
pub use image::{HEADER_BYTES, Image, MOST_PAYLOAD};
pub use images::{Images, ImagesError};
pub use laws::{
    altered_image_is_refused, cut_image_is_refused, erased_area_is_sound, finished_save_is_loaded,
    image_errors_are_equal_by_value, image_is_read_back, images_are_equal_by_value,
    images_errors_are_equal_by_value, interrupted_save_is_whole, memory_faults_are_equal_by_value,
    sides_are_equal_by_value, values_outlast_restarts,
};
pub use memory::{Memory, MemoryFault, Side};
