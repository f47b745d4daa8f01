//! Why a command failed.

use crate::Known;
use crate::data::statuses::{Status, put_meaning};
use rdm_frame::Uid;
use rdm_params::Entry;
use std::alloc::AllocError;

/// Puts what an entry of a status message of the fixture with this UID says at the end of a text: what is wrong, by the text of its
/// status ID with the two values in it, or the status ID if no text is known (E1.20 sections 10.3.2 and 10.3.3). Fails only if memory
/// is refused.
pub fn put_cause(
    text: &mut String,
    uid: Uid,
    cause: &Entry,
    known: &Known<'_>,
) -> Result<(), AllocError> {
    let status = Status {
        severity: cause.severity.code(),
        id: cause.id,
        first: cause.v1,
        second: cause.v2,
    };
    put_meaning(text, &status, &known.at(uid))
}
