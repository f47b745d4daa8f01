//! The words of frames: of their headers with their data below, and in short.

pub(crate) mod class;
pub(crate) mod frame_words;
pub(crate) mod header;
pub(crate) mod invalid;
pub(crate) mod place;
pub(crate) mod short;
