//! What is said of one addressed device.

pub(crate) mod blocks;
pub(crate) mod footprint;
pub(crate) mod measuring;
pub(crate) mod supporting;
