//! Fixtures that answer by a list are surveyed. What they are asked, and what is told of it, was worked out by hand.

mod fixture;

use fixture::{CONSOLE, Endless, FIXTURE, Fixture};
use rdm_collector::{Port, PortError};
use rdm_frame::{Text, Wire, decode_view};
use rdm_survey::{Row, StatusCounts};
use rdm_surveyor::{Report, SurveyFault, fetch_last_status, fetch_statuses, survey};
use std::alloc::Global;
use std::fmt::Write;
use std::str;
use std::test::Fail;

/// DEVICE_INFO of a moving head: model 0011, category 0102, software 00000100, footprint 8, personality 2 of 3, start address 101, two
/// sub-devices, two sensors.
const HEAD: &str = "01000011010200000100000802030065000202";

/// That of a cell: footprint 1, start address 201.
const CELL: &str = "010000120102000001000001010100C9000000";

/// That of a cell without slots.
const NO_SLOTS: &str = "0100001201020000010000000101FFFF000000";

/// The values of a fixture: the sub-device, the PID, the response type and the data.
type Values = &'static [(u16, u16, u8, &'static str)];

/// Fixtures: what they answer to parameters, and whether they reject others or are silent; what they are asked; and what is told.
const SURVEYS: &[(Values, bool, &str, &str)] = &[
    // All is told. Sub-device 2 isn't there, and sub-device 3 is the second.
    (
        &[
            (0, 0x0060, 0, HEAD),
            (0, 0x0081, 0, "50726F746F"),
            (0, 0x0080, 0, "48656164"),
            (0, 0x0082, 0, ""),
            (0, 0x00E1, 0, "0200084D6F6465"),
            (0, 0x00C0, 0, "312E30"),
            (0, 0x0400, 0, "00000102"),
            (1, 0x0060, 0, CELL),
            (3, 0x0060, 0, NO_SLOTS),
        ],
        true,
        "0060 0081 0080 0082 00E1=2 00C0 0400 0030=3 0060/1 0060/2 0060/3 ",
        "101+8 2/3 \"Proto\" \"Head\" \"\" \"Mode\" \"1.0\" 258 1@201+1 3@none+0 ",
    ),
    // Nothing is: each request is sent three times, and no more is asked.
    (&[], false, "0060 0060 0060 0081 0081 0081 ", "- - - - - - "),
    // All is rejected, and sub-devices aren't asked for.
    (
        &[],
        true,
        "0060 0081 0080 0082 00C0 0400 0030=3 ",
        "- - - - - - ",
    ),
    // What is answered isn't what was asked for: DEVICE_INFO with a slot too few, a text of 33, ACK_TIMER, a part, and hours of 3 slots.
    (
        &[
            (0, 0x0060, 0, "010000110102000001000008020300650002"),
            (
                0,
                0x0081,
                0,
                "303030303030303030303030303030303030303030303030303030303030303030",
            ),
            (0, 0x0080, 1, "0005"),
            (0, 0x0082, 3, "48656164"),
            (0, 0x0400, 0, "000102"),
        ],
        true,
        "0060 0081 0080 0082 00C0 0400 0030=3 ",
        "- - - - - - ",
    ),
    // The description is that of another personality.
    (
        &[
            (0, 0x0060, 0, HEAD),
            (0, 0x00E1, 0, "0100084D6F6465"),
            (1, 0x0060, 0, CELL),
            (2, 0x0060, 1, "0005"),
        ],
        true,
        "0060 0081 0080 0082 00E1=2 00C0 0400 0030=3 0060/1 0060/2 ",
        "101+8 2/3 - - - - - - 1@201+1 ",
    ),
];

/// What a fixture answers to STATUS_MESSAGES; how it is asked, by 3 for its errors and warnings, and by 1 for the last message; what of
/// that is handed on, with `again` if it was asked for again; and how many errors and warnings are counted.
const STATUSES: &[(&str, &str, &str, &str)] = &[
    // None; an error, a warning, an advisory, and an error that is over; and two messages.
    ("00210030", "3 ", "", "0/0"),
    (
        "00210030000004800100020000000003800200000000000002800300000000000014800400000000 00210030",
        "3 3 ",
        "000004800100020000000003800200000000000002800300000000000014800400000000 ",
        "1/1",
    ),
    (
        "00210030000004800100020000 00210030000104800100020000 00210030",
        "3 3 3 ",
        "000004800100020000 000104800100020000 ",
        "2/0",
    ),
    // It tells the same for ever.
    (
        "00210030000004800100020000 00210030000004800100020000",
        "3 3 ",
        "000004800100020000 ",
        "1/0",
    ),
    // It needs time, or doesn't know it, or has no more to say than that.
    ("012100300005", "3 ", "", "-"),
    ("022100300000", "3 ", "", "-"),
    (
        "00210030000004800100020000 022100300000",
        "3 3 ",
        "000004800100020000 ",
        "1/0",
    ),
    // The first answer is lost, and comes again; or the second, and what comes again is the first, since its request was lost.
    (
        "- 00210030000004800100020000 00210030",
        "3 1 3 ",
        "000004800100020000 again ",
        "1/0",
    ),
    (
        "00210030000004800100020000 - 00210030000004800100020000 00210030000104800100020000 00210030",
        "3 3 1 3 3 ",
        "000004800100020000 000104800100020000 ",
        "2/0",
    ),
    // The last message is one that somebody else fetched, and no status; or an empty one.
    ("- 0021040302 00210030", "3 1 3 ", "02 again ", "0/0"),
    ("- 00210030 00210030", "3 1 3 ", "", "0/0"),
    // It comes in two parts, which cut an entry.
    (
        "0321003000000480010002 002100300000 00210030",
        "3 3 3 ",
        "00000480010002 0000 ",
        "1/0",
    ),
    // It is silent, at once or later.
    ("- - -", "3 1 1 ", "", "-"),
    (
        "00210030000004800100020000 - - -",
        "3 3 1 1 ",
        "000004800100020000 ",
        "1/0",
    ),
];

/// What is told of a fixture, and what it was asked.
fn surveyed(
    alloc: Global,
    fixture: &mut Fixture,
    reports: &mut Vec<Report>,
) -> Result<Row, SurveyFault> {
    Ok(survey(alloc, CONSOLE, FIXTURE, fixture, reports)?.row)
}

/// Puts a text in double quotes at the end of another, or a dash.
fn put_text(text: &mut String, told: &Option<Text>) -> Result<(), Fail> {
    match told {
        Some(told) => {
            let told = str::from_utf8(told.as_slice()).unwrap_or("?");
            write!(text, "\"{told}\" ")?;
        }
        None => text.push_str("- ")?,
    }
    Ok(())
}

/// Puts what a row tells, but its status, at the end of a text.
fn put_told(text: &mut String, row: &Row) -> Result<(), Fail> {
    if let Some(info) = &row.device {
        let (address, footprint) = (info.address.unwrap_or(0), info.footprint);
        let (personality, personalities) = (info.personality, info.personalities);
        write!(text, "{address}+{footprint} {personality}/{personalities} ")?;
    }
    put_text(text, &row.manufacturer)?;
    put_text(text, &row.model)?;
    put_text(text, &row.label)?;
    put_text(text, &row.personality)?;
    put_text(text, &row.software)?;
    match row.hours {
        Some(hours) => write!(text, "{hours} ")?,
        None => text.push_str("- ")?,
    }
    for sub in &row.sub_devices {
        let (number, footprint) = (sub.number, sub.footprint);
        match sub.address {
            Some(address) => write!(text, "{number}@{address}+{footprint} ")?,
            None => write!(text, "{number}@none+{footprint} ")?,
        }
    }
    Ok(())
}

#[test]
fn a_fixture_tells_what_it_is(rt: HostRuntime) -> Result<(), Fail> {
    for (values, rejects, asked, told) in SURVEYS {
        let mut fixture = Fixture {
            values,
            statuses: "00210030",
            rejects: *rejects,
            asked: String::new(rt.alloc()),
        };
        let mut reports = Vec::new(rt.alloc());
        let row = surveyed(rt.alloc(), &mut fixture, &mut reports)?;
        let mut text = String::new(rt.alloc());
        put_told(&mut text, &row)?;
        assert!(rt; fixture.asked.as_str() == *asked);
        assert!(rt; text.as_str() == *told);
        assert!(rt; row.uid == FIXTURE);
    }
    Ok(())
}

#[test]
fn status_messages_are_fetched_and_handed_on(rt: HostRuntime) -> Result<(), Fail> {
    for (statuses, asked, told, counts) in STATUSES {
        let mut fixture = Fixture {
            values: &[],
            statuses,
            rejects: true,
            asked: String::new(rt.alloc()),
        };
        let mut reports = Vec::new(rt.alloc());
        let row = surveyed(rt.alloc(), &mut fixture, &mut reports)?;
        let mut text = String::new(rt.alloc());
        put_reports(&mut text, reports.as_slice())?;
        assert!(rt; text.as_str() == *told, "{statuses}");
        let mut text = String::new(rt.alloc());
        put_asked(&mut text, fixture.asked.as_str())?;
        assert!(rt; text.as_str() == *asked, "{statuses}");
        let mut text = String::new(rt.alloc());
        put_counts(&mut text, row.status)?;
        assert!(rt; text.as_str() == *counts, "{statuses}");
    }
    Ok(())
}

#[test]
fn the_status_of_a_fixture_is_fetched_alone(rt: HostRuntime) -> Result<(), Fail> {
    let mut fixture = Fixture {
        values: &[],
        statuses: "00210030000004800100020000 00210030",
        rejects: true,
        asked: String::new(rt.alloc()),
    };
    let mut reports = Vec::new(rt.alloc());
    let statuses = fetch_statuses(rt.alloc(), CONSOLE, FIXTURE, &mut fixture, &mut reports)?;
    let mut text = String::new(rt.alloc());
    put_counts(&mut text, statuses.counts)?;
    assert!(rt; (text.as_str(), fixture.asked.as_str()) == ("1/0", "0030=3 0030=3 "));
    assert!(rt; (reports.len(), statuses.has_more) == (1, false));
    Ok(())
}

#[test]
fn the_last_status_is_asked_for_again_once(rt: HostRuntime) -> Result<(), Fail> {
    let mut fixture = Fixture {
        values: &[],
        statuses: "00210030000004800100020000 00210030",
        rejects: true,
        asked: String::new(rt.alloc()),
    };
    let mut reports = Vec::new(rt.alloc());
    fetch_last_status(rt.alloc(), CONSOLE, FIXTURE, &mut fixture, &mut reports)?;
    let mut text = String::new(rt.alloc());
    put_reports(&mut text, reports.as_slice())?;
    assert!(rt;
        (text.as_str(), fixture.asked.as_str()) == ("000004800100020000 again ", "0030=1 ")
    );
    Ok(())
}

/// Puts the status types that were asked for at the end of a text.
fn put_asked(text: &mut String, asked: &str) -> Result<(), Fail> {
    for word in asked.split(' ') {
        if let Some(status_type) = word.strip_prefix("0030=") {
            write!(text, "{status_type} ")?;
        }
    }
    Ok(())
}

/// Puts the data of reports at the end of a text.
fn put_reports(text: &mut String, reports: &[Report]) -> Result<(), Fail> {
    for report in reports {
        if let Ok(frame) = decode_view(report.reply.as_slice()) {
            for byte in frame.body {
                write!(text, "{byte:02X}")?;
            }
        }
        text.push_str(if report.again { " again " } else { " " })?;
    }
    Ok(())
}

/// Puts how many errors and warnings there are at the end of a text.
fn put_counts(text: &mut String, counts: Option<StatusCounts>) -> Result<(), Fail> {
    match counts {
        Some(counts) => {
            let (errors, warnings) = (counts.errors, counts.warnings);
            write!(text, "{errors}/{warnings}")?;
        }
        None => text.push_str("-")?,
    }
    Ok(())
}

#[test]
fn a_hundred_status_messages_are_fetched_at_most(rt: HostRuntime) -> Result<(), Fail> {
    let mut reports = Vec::new(rt.alloc());
    let mut fixture = Endless { told: 0 };
    let surveyed = survey(rt.alloc(), CONSOLE, FIXTURE, &mut fixture, &mut reports)?;
    assert!(rt; reports.len() == 100);
    assert!(rt; surveyed.has_more);
    let mut text = String::new(rt.alloc());
    put_counts(&mut text, surveyed.row.status)?;
    assert!(rt; text.as_str() == "100/0");
    Ok(())
}

/// A port that fails when it has answered so many requests.
#[derive(Drop)]
struct Failing {
    left: u8,
    fixture: Fixture,
}

impl Port for Failing {
    ghost hears = { λ _ _ _ _. Unit {0} };

    ghost fails = { λ _ _ _ _. Unit {0} };

    fn exchange(&mut self, request: &Wire) -> Result<Option<Wire>, PortError> {
        if self.left == 0 {
            return Err(PortError::Closed);
        }
        self.left = self.left.saturating_sub(1);
        self.fixture.exchange(request)
    }
}

#[test]
fn what_was_fetched_is_handed_on_where_the_port_fails(rt: HostRuntime) -> Result<(), Fail> {
    // The seventh request is the first for status messages, if all others are rejected.
    for (left, count) in [(0, 0), (6, 0), (7, 1)] {
        let mut port = Failing {
            left,
            fixture: Fixture {
                values: &[],
                statuses: "00210030000004800100020000 00210030",
                rejects: true,
                asked: String::new(rt.alloc()),
            },
        };
        let mut reports = Vec::new(rt.alloc());
        let ended = surveyed_through(rt.alloc(), &mut port, &mut reports);
        assert!(rt;
            ended == Some(SurveyFault::Port(PortError::Closed)),
            "{left}"
        );
        assert!(rt; reports.len() == count, "{left}");
    }
    Ok(())
}

/// Why a survey through a port fails.
fn surveyed_through(
    alloc: Global,
    port: &mut Failing,
    reports: &mut Vec<Report>,
) -> Option<SurveyFault> {
    match survey(alloc, CONSOLE, FIXTURE, port, reports) {
        Ok(_) => None,
        Err(fault) => Some(fault),
    }
}
