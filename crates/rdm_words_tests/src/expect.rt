//! What no clause says: the report and the JUnit XML of expectations; and expectations that were judged by hand.

use rdm_expect::{SheetError, judge, parse, put_junit, put_report, put_suite, put_suites};
use rdm_frame::Uid;
use rdm_trace::lines_of;
use std::alloc::Global;
use std::process::Abort;

/// The device of the trace.
const DEVICE: Uid = Uid {
    maker: 0x7FF0,
    device: 1,
};

/// A command and its reply, a poll, and commands that go wrong: the frames are those of docs/SCRIPT.md and of examples/.
const TRACE: &[u8] = b"# 1.000 s
send CC01187FF0000000017FF00000000200010000002010000003F7
# 1.250 s
reply CC01197FF0000000027FF0000000010000000000211000010003F9
heard reply
send CC01197FF0000000017FF00000000202010000003010000102040D
reply CC011A7FF0000000027FF00000000102020000003110000200060415
heard reply
send CC01187FF0000000017FF0000000020601000002200082000471 lost-reply
reply CC011C7FF0000000027FF00000000107000000022100820443656C6C05FA
heard nothing
send CC01187FF0000000017FF0000000020701000002200082000472 bad-reply 3 1
reply CC011C7FF0000000027FF00000000107000000022100820443656C6C05FA
heard ignored
send CC01197FF0000000017FF000000002000100000030040301010401
reply CC011A7FF0000000027FF00000000100010000003104030200320435
job 0 0
heard reply
end
";

/// DISC_UNIQUE_BRANCH, answered by the device; with the answer lost, and altered; with 7 bytes of the preamble lost, and 8; by another device;
/// and by nobody. Then GET IDENTIFY_DEVICE, to which the device gives the same answer.
const SEARCH: &[u8] =
    b"send CC0124FFFFFFFFFFFF7FF00000000201010000001000010C000000000000FFFFFFFFFFFF0E75
reply FEFEFEFEFEFEFEAAFF7FFAF5AA55AA55AA55AB55AF57EA7F
heard ignored
send CC0124FFFFFFFFFFFF7FF00000000201010000001000010C000000000000FFFFFFFFFFFF0E75 lost-reply
reply FEFEFEFEFEFEFEAAFF7FFAF5AA55AA55AA55AB55AF57EA7F
heard nothing
send CC0124FFFFFFFFFFFF7FF00000000201010000001000010C000000000000FFFFFFFFFFFF0E75 bad-reply 9 1
reply FEFEFEFEFEFEFEAAFF7FFAF5AA55AA55AA55AB55AF57EA7F
heard ignored
send CC0124FFFFFFFFFFFF7FF00000000201010000001000010C000000000000FFFFFFFFFFFF0E75
reply AAFF7FFAF5AA55AA55AA55AB55AF57EA7F
heard ignored
send CC0124FFFFFFFFFFFF7FF00000000201010000001000010C000000000000FFFFFFFFFFFF0E75
reply FF7FFAF5AA55AA55AA55AB55AF57EA7F
heard ignored
send CC0124FFFFFFFFFFFF7FF00000000201010000001000010C000000000000FFFFFFFFFFFF0E75
reply FEFEFEFEFEFEFEAAFF7FFAF5AA55AA55AA55AA57AF57EA7F
heard ignored
send CC0124FFFFFFFFFFFF7FF00000000201010000001000010C000000000000FFFFFFFFFFFF0E75
reply none
heard nothing
send CC01187FF0000000017FF00000000207010000002010000003FE
reply FEFEFEFEFEFEFEAAFF7FFAF5AA55AA55AA55AB55AF57EA7F
heard ignored
end
";

/// The report of a text by a trace.
fn report(rt: &impl Abort, alloc: Global, trace: &[u8], text: &[u8]) -> String {
    let sheet = parse(alloc, text).expect(rt, "expectations");
    let lines = lines_of(alloc, trace).expect(rt, "a trace");
    let verdicts = judge(alloc, DEVICE, &sheet.expectations, &lines).expect(rt, "memory");
    let mut report = String::new(alloc);
    put_report(&mut report, None, &sheet.expectations, &verdicts).expect(rt, "memory");
    report
}

/// Texts, and the report of each by the first trace.
const REPORTS: &[(&[u8], &str)] = &[
    (
        b"get dev root 1000 -
expect ACK
expect data 00
expect reply
 expect\twithin 250 ms\r
",
        "4 passed, 0 failed
",
    ),
    (
        b"get dev root 1000 -
expect LENGTH 1
expect length 2 to 32
expect MESSAGE_COUNT 0
expect message_count 255
expect PARAMETER identify_device
expect parameter 0082
expect PARAMETER 8000
expect found
",
        "line 3: expected LENGTH 2 to 32, got LENGTH 1
line 5: expected MESSAGE_COUNT 255, got MESSAGE_COUNT 0
line 7: expected PARAMETER DEVICE_LABEL, got PARAMETER IDENTIFY_DEVICE
line 8: expected PARAMETER 8000, got PARAMETER IDENTIFY_DEVICE
line 9: expected found, got ACK, DATA 00
3 passed, 5 failed
",
    ),
    (
        b"get dev root 1000 -
expect within 249 MS
expect NACK
",
        "line 2: expected within 249 ms, got a reply after 250 ms
line 3: expected NACK, got ACK, DATA 00
0 passed, 2 failed
",
    ),
    (
        b"collect
set dev root 1000 02

# nothing
expect NACK DATA_OUT_OF_RANGE
expect nack 0006
expect NACK nr_format_error
expect within 1 s
",
        "line 7: expected NACK FORMAT_ERROR, got NACK DATA_OUT_OF_RANGE
line 8: skipped within 1000 ms: the trace has no times
2 passed, 1 failed, 1 skipped
",
    ),
    (
        b"get a
get b
disc c
expect nothing
get d
expect nothing
expect reply
",
        "line 6: expected nothing, got something that isn't a reply to it
line 7: expected reply, got something that isn't a reply to it
1 passed, 2 failed
",
    ),
    (
        b"find
expect reply
get
expect ACK_TIMER
expect ACK_OVERFLOW
get
expect ACK",
        "line 2: expected reply, got something that isn't a reply to it
line 5: expected ACK_OVERFLOW, got ACK_TIMER 5.0 s
line 7: expected ACK, got no request, since the run ended before it
1 passed, 3 failed
",
    ),
];

#[test]
fn expectations_are_reported(rt: HostRuntime) {
    for (text, wanted) in REPORTS {
        let report = report(&rt, rt.alloc(), TRACE, text);
        assert!(rt; report.as_str() == *wanted, "{report}");
    }
}

/// What a search hears: the answers to the first and to the fourth request are those of the device.
#[test]
fn who_is_found_is_reported(rt: HostRuntime) {
    let text = b"disc 1
expect found
disc 2
expect found
disc 3
expect found
disc 4
expect found
disc 5
expect found
disc 6
expect found
disc 7
expect found
expect nothing
get 8
expect found";
    let wanted = "line 4: expected found, got nothing
line 6: expected found, got something that isn't a reply to it
line 10: expected found, got something that isn't a reply to it
line 12: expected found, got something that isn't a reply to it
line 14: expected found, got nothing
line 17: expected found, got something that isn't a reply to it
3 passed, 6 failed
";
    let report = report(&rt, rt.alloc(), SEARCH, text);
    assert!(rt; report.as_str() == wanted, "{report}");
}

/// Texts, and the line and the words of the flaw that is told of each.
const FLAWS: &[(&[u8], usize, &str)] = &[
    (
        b"# first\nexpect ACK\nget",
        2,
        "nothing was sent before this",
    ),
    (
        b"draw\nsettle 1\nexpect nothing",
        3,
        "nothing was sent before this",
    ),
    (b"get\nexpect", 2, "this isn't a valid expectation"),
    (
        b"get\nexpect AK\nexpect NACK foo",
        2,
        "this isn't a valid expectation",
    ),
    (
        b"get\nexpect ACK\nexpect NACK UNKNOWN",
        3,
        "this isn't a valid reason",
    ),
    (b"get\nexpect DATA", 2, "this isn't valid data"),
    (b"get\nexpect DATA 012", 2, "this isn't valid data"),
    (b"get\nexpect LENGTH", 2, "this isn't a valid length"),
    (b"get\nexpect LENGTH 232", 2, "this isn't a valid length"),
    (b"get\nexpect LENGTH 3 to 2", 2, "this isn't a valid length"),
    (b"get\nexpect LENGTH 1 to", 2, "this isn't a valid length"),
    (b"get\nexpect LENGTH 1 or 2", 2, "this isn't a valid length"),
    (
        b"get\nexpect LENGTH 1 to 2 3",
        2,
        "this has a word too many",
    ),
    (
        b"get\nexpect MESSAGE_COUNT -",
        2,
        "this isn't a valid message count",
    ),
    (
        b"get\nexpect PARAMETER 82",
        2,
        "this isn't a valid parameter",
    ),
    (b"get\nexpect found 1", 2, "this has a word too many"),
    (b"get\nexpect within 2", 2, "this isn't a valid time"),
    (
        b"get\nexpect within 4294967296 ms",
        2,
        "this isn't a valid time",
    ),
    (
        b"get\nexpect within 2 s more",
        2,
        "this has a word too many",
    ),
    (b"get\nexpect ACK now", 2, "this has a word too many"),
];

#[test]
fn flaws_are_told(rt: HostRuntime) {
    for (text, number, words) in FLAWS {
        let told = match parse(rt.alloc(), text) {
            Err(SheetError::Line(line, flaw)) => line == *number
                && flaw.words().starts_with(*words),
            _ => false,
        };
        assert!(rt; told, "{words}");
    }
}

#[test]
fn lines_keep_their_numbers(rt: HostRuntime) {
    let text = b"get dev\r\nexpect ACK\r\n\n  expect reply\n# expect\nsettle 1";
    let sheet = parse(rt.alloc(), text).expect(&rt, "expectations");
    assert!(rt; sheet.script.as_slice() == b"get dev\r\n\n\n\n# expect\nsettle 1".as_slice());
    match sheet.expectations.as_slice() {
        [first, second] => {
            assert!(rt; first.line == 2 && first.request == 0);
            assert!(rt; second.line == 4 && second.request == 0);
        }
        _ => assert!(rt; false),
    }
}

/// The JUnit XML of the second text above, of a script with a name that needs escapes.
const XML: &str = "<?xml version=\"1.0\" encoding=\"UTF-8\"?>
<testsuite name=\"a&amp;&lt;b&gt;&quot;\" tests=\"3\" failures=\"1\" errors=\"0\" skipped=\"1\">
  <testcase classname=\"a&amp;&lt;b&gt;&quot;\" name=\"line 3: expect NACK\"/>
  <testcase classname=\"a&amp;&lt;b&gt;&quot;\" name=\"line 4: expect DATA 0102\">
    <failure message=\"expected DATA 0102, got NACK DATA_OUT_OF_RANGE\"/>
  </testcase>
  <testcase classname=\"a&amp;&lt;b&gt;&quot;\" name=\"line 5: expect within 2000 ms\">
    <skipped message=\"the trace has no times\"/>
  </testcase>
</testsuite>
";

#[test]
fn results_are_written_as_junit(rt: HostRuntime) {
    let alloc = rt.alloc();
    let text = b"get\nset\nexpect NACK\nexpect DATA 0102\nexpect within 2 s\n";
    let sheet = parse(alloc, text).expect(&rt, "expectations");
    let lines = lines_of(alloc, TRACE).expect(&rt, "a trace");
    let verdicts = judge(alloc, DEVICE, &sheet.expectations, &lines).expect(&rt, "memory");
    let mut markup = String::new(alloc);
    put_junit(&mut markup, "a&<b>\"", &sheet.expectations, &verdicts).expect(&rt, "memory");
    assert!(rt; markup.as_str() == XML, "{markup}");
}

/// The document of two scripts that expect nothing.
const SUITES: &str = "<?xml version=\"1.0\" encoding=\"UTF-8\"?>
<testsuites>
<testsuite name=\"mute.script\" tests=\"0\" failures=\"0\" errors=\"0\" skipped=\"0\">
</testsuite>
<testsuite name=\"a&amp;b\" tests=\"0\" failures=\"0\" errors=\"0\" skipped=\"0\">
</testsuite>
</testsuites>
";

#[test]
fn suites_are_one_document(rt: HostRuntime) {
    let mut suites = String::new(rt.alloc());
    for name in ["mute.script", "a&b"] {
        put_suite(&mut suites, name, &[], &[]).expect(&rt, "memory");
    }
    let mut markup = String::new(rt.alloc());
    put_suites(&mut markup, suites.as_str()).expect(&rt, "memory");
    assert!(rt; markup.as_str() == SUITES, "{markup}");
}
