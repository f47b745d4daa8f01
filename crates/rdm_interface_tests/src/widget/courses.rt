//! Sensors that show something over time, and status messages that come at their times.

use super::fixture_of;
use super::time::{Turn, answers_in_time};
use arrayvec::ArrayVec;
use rdm_courses::{Course, Notice, Point, Way};
use rdm_frame::Severity;
use rdm_params::Profile;
use rdm_widget::{LiveFixture, SensorCourse};
use std::process::Abort;

/// A course of these points.
fn course(points: &[(u32, i16)], way: Way, repeats: bool) -> Course {
    let mut course = Course {
        points: ArrayVec::new(),
        way,
        repeats,
    };
    for (at, value) in points {
        let point = Point {
            at: *at,
            value: *value,
        };
        let _ = course.points.try_push(point);
    }
    course
}

/// At this time a sensor shows this, or nothing.
type Shown = (u64, Option<i16>);

fn shows(rt: &impl Abort, course: &Course, times: &[Shown]) {
    for (now, value) in times {
        assert!(rt; course.value_at(*now) == *value, "at {now}");
    }
}

/// By steps a value holds; on a ramp it goes straight, and is rounded toward the earlier one, up and down; beyond the last point its value
/// stays.
#[test]
fn values_at_times(rt: HostRuntime) {
    let points = &[(1, 20), (4, 27), (6, -3)];
    let steps = [
        (0, None),
        (999, None),
        (1000, Some(20)),
        (3999, Some(20)),
        (4000, Some(27)),
        (6000, Some(-3)),
        (u64::MAX, Some(-3)),
    ];
    shows(&rt, &course(points, Way::Steps, false), &steps);
    // Seven in 3,000 ms: 20 and 2.33 after 1,000 ms, and 20 and 6.998 after 2,999 ms. Then 30 less in 2,000 ms: 27 less 14.985 after 999 ms.
    let ramp = [
        (999, None),
        (1000, Some(20)),
        (2000, Some(22)),
        (3999, Some(26)),
        (4000, Some(27)),
        (4999, Some(13)),
        (5000, Some(12)),
        (6000, Some(-3)),
        (7000, Some(-3)),
    ];
    shows(&rt, &course(points, Way::Ramp, false), &ramp);
    shows(
        &rt,
        &course(&[], Way::Ramp, false),
        &[(0, None), (9000, None)],
    );
}

/// A round of ten seconds: at its end the first value is shown again.
#[test]
fn rounds(rt: HostRuntime) {
    let points = &[(0, 0), (4, 8), (10, 2)];
    let steps = [
        (3999, Some(0)),
        (4000, Some(8)),
        (9999, Some(8)),
        (10_000, Some(0)),
        (14_000, Some(8)),
        (1_000_000_003_999, Some(0)),
    ];
    shows(&rt, &course(points, Way::Steps, true), &steps);
    let ramp = [
        (2000, Some(4)),
        (7000, Some(5)),
        (9999, Some(3)),
        (10_000, Some(0)),
    ];
    shows(&rt, &course(points, Way::Ramp, true), &ramp);
}

/// This has been shown between a look and now.
fn shown_is(rt: &impl Abort, course: &Course, looked: Option<u64>, now: u64, values: &[i16]) {
    let shown = course.shown_since(looked, now);
    assert!(rt; shown.as_slice() == values);
}

/// What has been shown since a look: each point that has come, once, and the present value.
#[test]
fn since_a_look(rt: HostRuntime) {
    let once = course(&[(1, 5), (2, 9), (3, 7)], Way::Steps, false);
    shown_is(&rt, &once, None, 0, &[]);
    shown_is(&rt, &once, None, 2500, &[5, 9, 9]);
    shown_is(&rt, &once, Some(2500), 2900, &[9]);
    shown_is(&rt, &once, Some(1000), 9000, &[9, 7, 7]);
    let again = course(&[(0, 5), (2, 9), (3, 7)], Way::Steps, true);
    shown_is(&rt, &again, Some(2500), 4000, &[5, 7, 5]);
    shown_is(&rt, &again, Some(4000), 5000, &[9, 9]);
    shown_is(&rt, &again, Some(0), 90_000, &[5, 9, 7, 5]);
}

/// GET SENSOR_VALUE of sensor 1: the present, the lowest, the highest and the recorded value. It goes to 20, 90, -5, 30 and 40: between looks
/// the highest and the lowest are passed. A SET resets what is kept to what is shown.
const WARMS_UP: &[Turn] = &[
    Turn {
        at: 1999,
        asked: "CC01197FF0000000017FF0000000020001000000200201010103ED",
        told: "CC01217FF0000000027FF00000000100000000002102010901000000000000000003FD",
    },
    Turn {
        at: 2000,
        asked: "CC01197FF0000000017FF0000000020101000000200201010103EE",
        told: "CC01217FF0000000027FF0000000010100000000210201090100140000001400000426",
    },
    Turn {
        at: 9000,
        asked: "CC01197FF0000000017FF0000000020201000000200201010103EF",
        told: "CC01217FF0000000027FF00000000102000000002102010901001EFFFB005A00000671",
    },
    Turn {
        at: 20000,
        asked: "CC01197FF0000000017FF0000000020301000000200201010103F0",
        told: "CC01217FF0000000027FF000000001030000000021020109010024FFFB005A00000678",
    },
    Turn {
        at: 20000,
        asked: "CC01197FF0000000017FF000000002040100000030020101010401",
        told: "CC01217FF0000000027FF00000000104000000003102010901002400240024002404A1",
    },
    Turn {
        at: 21000,
        asked: "CC01197FF0000000017FF0000000020501000000200201010103F2",
        told: "CC01217FF0000000027FF0000000010500000000210201090100240024002400240492",
    },
    Turn {
        at: 28000,
        asked: "CC01197FF0000000017FF0000000020601000000200201010103F3",
        told: "CC01217FF0000000027FF000000001060000000021020109010028002400280024049B",
    },
];

/// The demonstration fixture, of which sensor 1 is answered at once and has a course.
fn warming_up(rt: &(impl AllocGlobal + Abort)) -> LiveFixture {
    let mut profile = Profile::demo(0);
    if let Some(sensor) = profile.sensors.as_mut_slice().get_mut(1) {
        sensor.at_once = true;
    }
    let mut fixture = fixture_of(rt, 1, profile);
    let points = &[(2, 20), (4, 90), (6, -5), (8, 30), (28, 40)];
    let course = course(points, Way::Ramp, false);
    let mut courses = Vec::new(rt.alloc());
    courses
        .push(SensorCourse { sensor: 1, course })
        .expect(rt, "memory");
    fixture.follow(courses);
    fixture
}

#[test]
fn a_sensor_follows_its_course(rt: HostRuntime) {
    answers_in_time(&rt, &mut warming_up(&rt), WARMS_UP);
}

/// STATUS_MESSAGES: a warning comes after two seconds, and every ten seconds again, and an error after thirty. What came several times since
/// the last request is told once.
const MESSAGES: &[Turn] = &[
    Turn {
        at: 1999,
        asked: "CC01197FF0000000017FF00000000200010000002000300102041B",
        told: "CC01187FF0000000027FF0000000010000000000210030000417",
    },
    Turn {
        at: 2000,
        asked: "CC01197FF0000000017FF00000000201010000002000300102041C",
        told: "CC01217FF0000000027FF0000000010100000000210030090000030050000100020480",
    },
    Turn {
        at: 11999,
        asked: "CC01197FF0000000017FF00000000202010000002000300102041D",
        told: "CC01187FF0000000027FF0000000010200000000210030000419",
    },
    Turn {
        at: 12000,
        asked: "CC01197FF0000000017FF00000000203010000002000300102041E",
        told: "CC01217FF0000000027FF0000000010300000000210030090000030050000100020482",
    },
    Turn {
        at: 50000,
        asked: "CC01197FF0000000017FF00000000204010000002000300102041F",
        told: "CC012A7FF0000000027FF00000000104000000002100301200000300500001000200000400510000000004EA",
    },
];

#[test]
fn status_messages_come_at_their_times(rt: HostRuntime) {
    let mut fixture = fixture_of(&rt, 1, Profile::demo(0));
    let warning = Notice {
        at: 2,
        every: Some(10),
        sub: 0,
        severity: Severity::Warning,
        id: 0x0050,
        v1: 1,
        v2: 2,
    };
    let error = Notice {
        at: 30,
        every: None,
        severity: Severity::Error,
        id: 0x0051,
        v1: 0,
        v2: 0,
        ..warning
    };
    let mut notices = Vec::new(rt.alloc());
    notices.push(warning).expect(&rt, "memory");
    notices.push(error).expect(&rt, "memory");
    fixture.tell(notices);
    answers_in_time(&rt, &mut fixture, MESSAGES);
}
