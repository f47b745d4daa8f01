//! What no clause says: what is drawn of a trace, and how one is read that isn't whole.

use rdm_chart::{ChartError, Named, chart};
use rdm_frame::Uid;
use rdm_words::Known;
use std::alloc::{AllocError, Global};
use std::process::Abort;
use std::str;

/// A command whose reply is lost, and one whose request is altered; a job and its report; a change that is refused; and
/// what the controller recorded.
const TRACE: &[u8] = b"send CC01197FF0000000017FF000000002000100000030040301010401 lost-reply
reply CC011A7FF0000000027FF00000000100010000003104030200320435
job 0 0
heard nothing
arrive 0 0 done
panel personality 9 refused
send CC01187FF0000000017FF0000000020601000002200082000471 bad-request 20 16
reply none
heard nothing
send CC01197FF0000000017FF00000000201010000002000200102040C
reply CC01187FF0000000027FF00000000101000000003104030003FF
heard message
message 31 0403 0000 -
end
";

/// How often a part stands in the chart of a trace.
fn count(svg: &[u8], part: &str) -> usize {
    let text = str::from_utf8(svg).unwrap_or("");
    text.split(part).count().saturating_sub(1)
}

/// Parts, and how often each stands in a chart.
type Parts = &'static [(&'static str, usize)];

/// The chart of a trace has these parts, if this fixture is named.
fn has(rt: &impl Abort, alloc: Global, trace: &[u8], named: Option<Named<'_>>, parts: Parts) {
    let svg = chart(alloc, trace, &Known::nothing(), named).expect(rt, "a chart");
    for (part, expected) in parts {
        assert!(rt; count(svg.as_slice(), part) == *expected, "{part}");
    }
}

/// The parts of the chart of that trace.
const ARROWS: Parts = &[
    ("class=\"name\"", 4),
    ("class=\"rule\"", 3),
    ("class=\"arrow\"", 5),
    ("class=\"arrow altered\"", 1),
    ("class=\"arrow lost\"", 2),
    ("class=\"cross\"", 2),
    ("recorded 1</text>", 1),
    // the heading says that the messages below it are recorded
    ("recorded: ", 0),
    (">SET response LAMP_STATE (0403), root</text>", 1),
    ("SET LAMP_STATE", 1),
    ("slot 20 raised by 16", 1),
];

#[test]
fn each_message_has_its_arrow(rt: HostRuntime) {
    has(&rt, rt.alloc(), TRACE, None, ARROWS);
}

/// Each worker has a lifeline, and a job goes to that of its own.
const WORKERS: &[u8] = b"job 0 0\njob 1 0\narrive 1 0 done\nend\n";

/// A request that nobody hears, so that no reply is missed.
const UNHEARD: &[u8] = b"send CC01187FF0000000017FF00000000200010000002010000003F7 lost-request
reply none
heard nothing
end
";

/// A mute that is answered, and the fixture that is found so.
const MUTED: &[u8] = b"send CC01187FF0000000017FF00000000202010000001000020003DB
reply CC011A7FF0000000027FF000000001020000000011000202000003DF
heard reply
found 7FF0:00000001
end
";

/// A search that a fixture answers, which isn't ignored, with its time; and one that nobody answers in time.
const SEARCHED: &[u8] = b"# 61.004 s
send CC0124FFFFFFFFFFFF7FF00000000200010000001000010C000000000000FFFFFFFFFFFF0E74
reply FEFEFEFEFEFEFEAAFF7FFAF5AA55AA55AA55AB55AF57EA7F
heard ignored
# a remark
send CC01187FF0000000017FF00000000202010000001000020003DB
reply CC011A7FF0000000027FF000000001020000000011000202000003DF
heard ignored
end
";

/// A label that has no room beside the words before it.
const BROKEN: &[u8] =
    b"send CC01387FF0000000017FF00000000200010000003000822057575757575757575757575757575757575757575757575757575757575757570F99
end
";

/// A command that is rejected, and the same with the reply lost; a job that is done, and one that fails.
const NEGATIVE: &[u8] = b"send CC01187FF0000000507FF000000002000100000020040300043D
reply CC011A7FF0000000027FF00000005000020000002104030200000443
job 0 0
job 0 1
heard reply
arrive 0 0 done
arrive 0 1 failed 04 8001 000C 0000
send CC01187FF0000000507FF000000002000100000020040300043D lost-reply
reply CC011A7FF0000000027FF00000005000020000002104030200000443
heard nothing
end
";

/// A GET of PARAMETER_DESCRIPTION, whose data are more than fit into a line.
const DESCRIBED: &[u8] = b"send CC011A7FF0000000507FF00000000203010000002000510280040512
reply CC01357FF0000000027FF00000005003000000002100511D800404070100000000000000FFFFFFFF000000004C454420686F7572730C76
heard reply
end
";

/// Times of a request, a reply, a job and its report, and of a line that isn't drawn, whose time is that of nothing else.
const TIMED: &[u8] = b"# 1.000 s
send CC01187FF0000000507FF000000002000100000020040300043D
# 1.010 s
reply CC011A7FF0000000027FF00000005000020000002104030200000443
# 1.020 s
job 0 0
# 1.030 s
heard reply
arrive 0 0 done
# 1.040 s
send CC01187FF0000000507FF000000002000100000020040300043D
# 1.050 s
reply none
# 1.060 s
arrive 0 0 done
end
";

/// Traces, and parts of their charts.
const CHARTS: &[(&[u8], Parts)] = &[
    (
        WORKERS,
        &[
            ("class=\"name\"", 4),
            (">worker 0</text>", 1),
            (">worker 1</text>", 1),
            // from the responder to each worker, less the tip of an arrow; the second has its lifeline, that tip, and a report
            (" H 950\"", 1),
            (" H 1100\"", 1),
            ("\"M 1110 ", 3),
        ],
    ),
    (UNHEARD, &[("class=\"arrow lost\"", 1), ("no reply", 0)]),
    (
        MUTED,
        &[
            ("class=\"arrow\"", 2),
            (">found</text>", 1),
            (">7FF0:00000001</text>", 1),
        ],
    ),
    (
        SEARCHED,
        &[
            (">61.004 s</text>", 1),
            (">ignored</text>", 1),
            ("class=\"arrow\"", 4),
        ],
    ),
    (
        BROKEN,
        &[
            (">SET DEVICE_LABEL:</text>", 1),
            (">&quot;WWWWWWWWWWWWWWWWWWWWWWWWWWWWWWWW&quot;</text>", 1),
        ],
    ),
    (
        NEGATIVE,
        &[
            ("class=\"arrow negative\"", 2),
            ("class=\"tip negative-tip\"", 2),
            ("class=\"arrow lost\"", 1),
            // two requests, two jobs, and the report of the one that is done
            ("class=\"arrow\"", 5),
            // the words of a NACK that is lost, too
            ("class=\"words negative-words\"", 5),
            (">NACK: unknown PID</text>", 2),
            // a number stays with the word before it
            (">values 12 and 0</text>", 1),
        ],
    ),
    (
        DESCRIBED,
        &[
            ("slots of data", 0),
            (
                ">ACK PARAMETER_DESCRIPTION: parameter 8004: &quot;LED hours&quot;,",
                1,
            ),
            ("0 to 4294967295", 1),
        ],
    ),
    (
        TIMED,
        &[
            // before the controller
            (" x=\"136\" y=\"140\">1.000 s</text>", 1),
            // behind the responder
            (" x=\"704\" y=\"173\">1.010 s</text>", 1),
            // before the responder, level with the words of the job
            (" x=\"676\" y=\"206\">1.020 s</text>", 1),
            ("\"words\" x=\"704\" y=\"206\">job 0</text>", 1),
            (">1.030 s</text>", 0),
            (">1.040 s</text>", 1),
            (">1.050 s</text>", 0),
            (">1.060 s</text>", 1),
        ],
    ),
];

/// The fixture for which the requests of some of these traces are, as its file names it.
const WASH: Named<'static> = Named {
    uid: Uid {
        maker: 0x7FF0,
        device: 0x50,
    },
    name: b"LED <wash>",
};

/// Traces, and what their titles have if that fixture is named.
const TITLES: &[(&[u8], Parts)] = &[
    (
        NEGATIVE,
        &[
            (
                "\"title\">LED &lt;wash&gt;: 7FF0:00000050, 2 transactions</title>",
                1,
            ),
            (
                "class=\"title\" x=\"24\" y=\"36\">LED &lt;wash&gt;</text>",
                1,
            ),
            (">7FF0:00000050, 2 transactions</text>", 1),
        ],
    ),
    // a broadcast is for no responder alone
    (
        SEARCHED,
        &[
            (">Responder 7FF0:00000001</text>", 1),
            (">2 transactions</text>", 1),
            ("LED", 0),
        ],
    ),
    (MUTED, &[(">1 transaction</text>", 1)]),
    (
        b"send CC01187FF0000000507FF000000002000100000020040300043D
send CC01187FF0000000517FF000000002000100000020040300043E
",
        &[(">Several responders</text>", 1), ("LED", 0)],
    ),
    (
        b"end\n",
        &[
            (">No responder addressed</text>", 1),
            (">0 transactions</text>", 1),
        ],
    ),
];

#[test]
fn rows_of_titles(rt: HostRuntime) {
    for (trace, parts) in TITLES {
        has(&rt, rt.alloc(), trace, Some(WASH), parts);
    }
}

#[test]
fn rows_of_charts(rt: HostRuntime) {
    for (trace, parts) in CHARTS {
        has(&rt, rt.alloc(), trace, None, parts);
    }
}

#[test]
fn a_trace_is_drawn_as_far_as_it_goes(rt: HostRuntime) {
    for end in 0..TRACE.len() {
        let front = TRACE.get(..end).unwrap_or(TRACE);
        assert!(rt; outcome(rt.alloc(), front).is_ok(), "cut at {end}");
    }
}

/// What comes of a trace.
fn outcome(alloc: Global, trace: &[u8]) -> Result<(), ChartError> {
    chart(alloc, trace, &Known::nothing(), None)?;
    Ok(())
}

/// Traces, and what comes of them.
const LINES: &[(&[u8], Result<(), ChartError>)] = &[
    (b"", Ok(())),
    (b"end", Ok(())),
    (b"end\r\n", Ok(())),
    (b"\nend\n", Err(ChartError::Line(1))),
    (b"end\nget dev 0000 1000 -\n", Err(ChartError::Line(2))),
    (b"end\nget dev 0000 1000 -", Err(ChartError::Line(2))),
    (b"end\nsend CC0", Ok(())),
    (b"end\nsen", Ok(())),
    (b"end\nsen CC0", Err(ChartError::Line(2))),
    (b"# 0.5 s\n#\n# a remark\n", Ok(())),
    (b"#", Ok(())),
    (b"nonsense", Err(ChartError::Line(1))),
    (b"send CC0\n", Err(ChartError::Line(1))),
];

#[test]
fn a_line_of_no_trace_is_refused(rt: HostRuntime) {
    for (trace, expected) in LINES {
        assert!(rt; outcome(rt.alloc(), trace) == *expected, "{trace:?}");
    }
}

/// A trace of 2,001 requests.
fn long_trace(alloc: Global) -> Result<Vec<u8>, AllocError> {
    let mut trace = Vec::new(alloc);
    for _request in 0..2001 {
        trace.extend_from_slice(b"send 00\n")?;
    }
    Ok(trace)
}

#[test]
fn a_chart_of_too_many_is_refused(rt: HostRuntime) {
    let trace = long_trace(rt.alloc()).expect(&rt, "memory");
    let most = trace.get(..16000).unwrap_or(&[]);
    let told = (
        outcome(rt.alloc(), trace.as_slice()),
        outcome(rt.alloc(), most),
    );
    assert!(rt; told == (Err(ChartError::TooMany), Ok(())));
}
