//! What is said of the slow commands of a fixture.

use super::FIXTURE;
use rdm_device::{Estimates, Particular, Particulars, Profile, Worker, Workers};
use rdm_words::put_fixture;

/// What is said of the fixture itself, behind its boot software.
const SLOW: &str = r#"  LAMP_STATE takes about 6553.5 s
  PERFORM_SELFTEST takes about 0.0 s
  SENSOR_VALUE takes about 0.7 s
  POWER_STATE is carried out by worker 1
  PERFORM_SELFTEST is carried out by worker 0
no sub-devices
"#;

#[test]
fn what_is_not_as_usual_is_said(rt: HostRuntime) {
    let mut particular = Particular::usual();
    particular.estimates = Estimates {
        lamp: 65535,
        self_test: 0,
        sensor: 7,
        ..Estimates::usual()
    };
    let mut profile = Profile::demo(0);
    profile.particulars = Particulars::of(rt.alloc(), particular).expect(&rt, "memory");
    profile.workers = Workers {
        power: Worker::Second,
        self_test: Worker::First,
        ..Workers::usual()
    };
    if let Some(sensor) = profile.sensors.as_mut_slice().get_mut(1) {
        sensor.at_once = true;
    }
    let mut said = Vec::new(rt.alloc());
    put_fixture(&mut said, FIXTURE, &profile, &[]).expect(&rt, "memory");
    let text = std::str::from_utf8(said.as_slice()).unwrap_or("");
    assert!(rt; text.ends_with(SLOW) && is_one_at_once(text), "{text}");
}

/// Whether it is said that sensors are answered at once, and of no other sensor than this one.
fn is_one_at_once(text: &str) -> bool {
    let mut lines = text
        .lines()
        .filter(|line| line.ends_with("answered at once"));
    text.contains("answered at once")
        && lines.all(|line| line.starts_with("  sensor 1: \"Head temperature\""))
}
