//! The words that errors print.

use super::*;

/// Why there are no devices, and the words for it.
const NEW_ERRORS: &[(NewError, &str)] = &[
    (NewError::OutOfMemory, "out of memory"),
    (NewError::TooManySubs, "too many sub-devices"),
    (NewError::BadProfile, "bad profile"),
];

#[test]
fn errors_say_what_is_wrong(rt: HostRuntime) {
    for (error, words) in NEW_ERRORS {
        let said = format!(in rt.alloc(); "{error}").expect(&rt, "memory");
        assert!(rt; said.as_str() == *words, "{said}, not {words}");
    }
}
