//! What C is answered, by numbers from outside.

use super::*;

/// GET of IDENTIFY_DEVICE, behind its length. The answer is 27 bytes, of which the first 25 have the sum 0x03F9.
const GET_IDENTIFY: [u8; 28] = [
    0, 26, 0xCC, 0x01, 24, 0x7F, 0xF0, 0, 0, 0, 1, 0x7F, 0xF0, 0, 0, 0, 2, 0, 1, 0, 0, 0, 0x20,
    0x10, 0, 0, 0x03, 0xF7,
];

/// GET of the parameter 8001 of the maker's own, behind its length. The answer is 27 bytes, of which the first 25 have the sum
/// 0x046A.
const GET_OWN: [u8; 28] = [
    0, 26, 0xCC, 0x01, 24, 0x7F, 0xF0, 0, 0, 0, 1, 0x7F, 0xF0, 0, 0, 0, 2, 0, 1, 0, 0, 0, 0x20,
    0x80, 0x01, 0, 0x04, 0x68,
];

/// The sum of the bytes of the answer.
const ANSWERED: u64 = 0x03F9 + 0x03 + 0xF9;

/// SET of LAMP_STATE to 01, behind its length. The answer is 28 bytes, an ACK_TIMER of 5 seconds, of which the first 26
/// have the sum 0x0435 where no message waits.
const SET_LAMP: [u8; 29] = [
    0, 27, 0xCC, 0x01, 25, 0x7F, 0xF0, 0, 0, 0, 1, 0x7F, 0xF0, 0, 0, 0, 2, 0, 1, 0, 0, 0, 0x30,
    0x04, 0x03, 1, 1, 0x04, 0x01,
];

/// What so many rounds are answered, and what `tally` is then. It is 1 and 1 before.
fn run(
    rt: &HostRuntime,
    subs: u16,
    preface: &[u8],
    bytes: &[u8],
    rounds: u32,
    reports: u8,
) -> (u8, u64, u64) {
    let mut tally = Tally { bytes: 1, total: 1 };
    let code = rdm_bench_run(
        rt.alloc(),
        false,
        subs,
        preface,
        bytes,
        rounds,
        reports,
        &mut tally,
    );
    (code, tally.bytes, tally.total)
}

#[test]
fn adds_the_replies_of_all_rounds(rt: HostRuntime) {
    assert!(rt; run(&rt, 0, &[], &GET_IDENTIFY, 3, 1) == (0, 3 * 27, 3 * ANSWERED));
    assert!(rt; run(&rt, 0, &GET_IDENTIFY, &GET_IDENTIFY, 1, 1) == (0, 2 * 27, 2 * ANSWERED));
    assert!(rt; run(&rt, 0, &[], &GET_IDENTIFY, 0, 1) == (0, 0, 0));
}

#[test]
fn a_report_leaves_a_message(rt: HostRuntime) {
    // The second answer counts the message that waits where the job is reported, and so does its checksum.
    let timer = 0x0435 + 0x04 + 0x35;
    assert!(rt; run(&rt, 0, &[], &SET_LAMP, 2, 0) == (0, 2 * 28, 2 * timer));
    for reports in 1..4 {
        assert!(rt;
            run(&rt, 0, &[], &SET_LAMP, 2, reports) == (0, 2 * 28, 2 * timer + 2),
            "{reports}"
        );
    }
}

#[test]
fn says_why_it_did_not_run(rt: HostRuntime) {
    assert!(rt; run(&rt, 513, &[], &GET_IDENTIFY, 1, 4) == (2, 1, 1));
    assert!(rt; run(&rt, 512, &[], &GET_IDENTIFY, 1, 4) == (3, 1, 1));
}

#[test]
fn a_device_has_parameters_of_its_makers_own(rt: HostRuntime) {
    let mut tally = Tally { bytes: 1, total: 1 };
    let code = rdm_bench_run(rt.alloc(), true, 0, &[], &GET_OWN, 2, 1, &mut tally);
    assert!(rt; (code, tally.bytes, tally.total) == (0, 2 * 27, 2 * (0x046A + 0x04 + 0x6A)));
}
