//! The words that errors print.

use super::*;
use std::alloc::AllocError;

/// Why there is no lane or nothing is taken, why an item isn't put, and why lists are not settled.
const WORDS: &str = "out of memory
bad size
lane full
out of memory
post spent
the lists are not those of one lane";

/// What errors print, in this order.
fn printed(alloc: Global) -> Result<String, AllocError> {
    format!(in alloc;
        "{}\n{}\n{}\n{}\n{}\n{}",
        LaneError::OutOfMemory,
        LaneError::BadSize,
        PutError::Full(1u32),
        PutError::OutOfMemory(2u32),
        PutError::Spent(3u32),
        SettleError::Mismatch
    )
}

#[test]
fn errors_say_what_is_wrong(rt: HostRuntime) {
    let printed = printed(rt.alloc()).expect(&rt, "memory");
    assert!(rt; printed.as_str() == WORDS);
}
