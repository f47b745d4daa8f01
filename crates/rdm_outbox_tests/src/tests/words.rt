//! The words that errors print.

use super::*;

/// Why there is no outbox, and the words for it.
const NEW_ERRORS: &[(NewError, &str)] = &[
    (NewError::OutOfMemory, "out of memory"),
    (NewError::BadSize, "bad outbox size"),
];

#[test]
fn errors_say_what_is_wrong(rt: HostRuntime) {
    for (error, words) in NEW_ERRORS {
        let said = format!(in rt.alloc(); "{error}").expect(&rt, "memory");
        assert!(rt; said.as_str() == *words, "{said}, not {words}");
    }
    let full = Full::NoRoom;
    let said = format!(in rt.alloc(); "{full}").expect(&rt, "memory");
    assert!(rt; said.as_str() == "no room for a job");
}
