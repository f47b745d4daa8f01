//! Why values aren't saved or restored.

use thiserror::Error;

/// Why values aren't saved.
#[derive(Clone, Copy, Debug, PartialEq, Eq, Error)]
pub enum SaveError {
    /// There is no room for the image.
    #[error("no room for the image")]
    Short,
}

/// Why values aren't restored. The first reason that applies is given, in this order.
#[derive(Clone, Copy, Debug, PartialEq, Eq, Error)]
pub enum RestoreError {
    /// The image has another length than it says: it is cut, or it is no image.
    #[error("the image has another length")]
    Length,
    /// The last four bytes aren't the sum of the others: a byte is altered, or it is no image.
    #[error("the image is altered")]
    Altered,
    /// It is the image of a fixture of another manufacturer or model.
    #[error("the image is of another manufacturer or model")]
    OfAnother,
}
