//! Streams of bytes, and the messages that they hold.

use super::{Line, answers, serve_at, stream};
use std::alloc::{AllocError, Global};
use std::io::Read;
use std::process::Abort;

/// Parameters, a serial number, an RDM request that is no frame, DMX512 data, a label that isn't known, and parameters again.
const ASKED: &[Line] = &[
    (3, "0000"),
    (10, ""),
    (7, "7EE7"),
    (6, "00FF7E"),
    (77, ""),
    (3, ""),
];

/// What is answered to them.
const TOLD: &[Line] = &[
    (3, "0402090128"),
    (10, "01000000"),
    (12, ""),
    (3, "0402090128"),
];

#[test]
fn a_message_may_be_cut_anywhere(rt: HostRuntime) {
    let input = stream(&rt, ASKED);
    let told = stream(&rt, TOLD);
    for cut in 0..input.len() + 1 {
        let (front, rest) = input.as_slice().split_at(cut);
        is_answered(&rt, front, rest, told.as_slice());
    }
}

/// What comes in two pieces is answered so.
fn is_answered(rt: &(impl AllocGlobal + Abort), front: &[u8], rest: &[u8], told: &[u8]) {
    let mut output = Vec::new(rt.alloc());
    let served = serve_at(rt, &mut front.chain(rest), &mut output, &[]);
    let is_so = served.is_ok() && output.as_slice() == told;
    assert!(rt; is_so, "cut at {}", front.len());
}

/// So many times this byte after those, how many bytes are answered in all.
struct Run {
    head: &'static [u8],
    byte: u8,
    count: usize,
    tail: &'static [u8],
    answered: usize,
}

/// A message of 600 bytes, one of 601, in which no other message stands, nothing but the first byte of a message, and a whole
/// message behind the beginning of another one.
const RUNS: &[Run] = &[
    Run {
        head: &[0x7E, 10, 0x58, 2],
        byte: 0,
        count: 600,
        tail: &[0xE7],
        answered: 9,
    },
    Run {
        head: &[0x7E, 10, 0x59, 2],
        byte: 0,
        count: 601,
        tail: &[0xE7],
        answered: 0,
    },
    Run {
        head: &[0x7E, 10, 0x58, 2],
        byte: 0,
        count: 600,
        tail: &[0xE6],
        answered: 0,
    },
    Run {
        head: &[],
        byte: 0x7E,
        count: 3000,
        tail: &[],
        answered: 0,
    },
    Run {
        head: &[0x7E, 10, 0, 0, 0],
        byte: 0,
        count: 700,
        tail: &[0x7E, 10, 0, 0, 0xE7],
        answered: 9,
    },
];

/// The bytes of a run.
fn bytes_of(alloc: Global, run: &Run) -> Result<Vec<u8>, AllocError> {
    let mut input = run.head.to_vec(alloc)?;
    for _ in 0..run.count {
        input.push(run.byte)?;
    }
    input.extend_from_slice(run.tail)?;
    Ok(input)
}

#[test]
fn rubbish_is_passed_over(rt: HostRuntime) {
    for run in RUNS {
        let input = bytes_of(rt.alloc(), run).expect(&rt, "memory");
        let answered = answers(&rt, input.as_slice(), &[]).len();
        assert!(rt; answered == run.answered, "{}", run.count);
    }
}
