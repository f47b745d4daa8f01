//! The rig of `felosumay widget`: the fixtures that are asked for, on one line.

use arrayvec::ArrayVec;
use clap::ArgMatches;
use rdm_courses::{Course, MOST_POINTS, Notice, Point};
use rdm_device::Profile;
use rdm_fixture::{Fixture, Starting, shown_at_start};
use rdm_frame::Uid;
use rdm_frame::standard::ROOT_DEVICE;
use rdm_host::fault::Fault;
use rdm_host::fixture::{DEMONSTRATION, FixtureFile, demonstration};
use rdm_host::host::Host;
use rdm_host::source::Source;
use rdm_line::{Collision, JoinError, Line};
use rdm_params::Kind;
use rdm_widget::{LiveFixture, SensorCourse};
use std::alloc::{AllocError, Global};

/// How many results of slow commands there is room for in a fixture.
const QUEUE_SIZE: u16 = 8;

/// From where on bytes of a collision are made up: the same at each run.
const SEED: u64 = 1;

/// Fixtures of a rig that are alike: the file that describes them, and how many there are.
#[derive(Clone, Copy)]
struct Share<'a> {
    path: &'a str,
    count: u16,
}

impl<'a> Share<'a> {
    /// What a word of the command line asks for: `FILE*N` are N fixtures, and FILE alone is as many as there are of each.
    fn named(word: &'a str, each: u16) -> Result<Share<'a>, Fault<'a>> {
        match word.rsplit_once('*') {
            Some((path, digits)) if is_counted(path, digits) => {
                let count = count_in(digits).ok_or(Fault::BadCount(word))?;
                Ok(Share { path, count })
            }
            _ => Ok(Share {
                path: word,
                count: each,
            }),
        }
    }
}

/// Whether a word is a path with a number behind it.
fn is_counted(path: &str, digits: &str) -> bool {
    !path.is_empty() && !digits.is_empty() && digits.bytes().all(|byte| byte.is_ascii_digit())
}

/// The number of fixtures that these digits are, if there can be so many on a line.
fn count_in(digits: &str) -> Option<u16> {
    match digits.parse::<u16>() {
        Ok(count) if count >= 1 && count <= rdm_usage::MOST_FIXTURES => Some(count),
        _ => None,
    }
}

/// How many fixtures are asked for. More than there may be on a line are refused, and so is standard input, which has what the host says.
pub(crate) fn fixture_count<'a>(asked: &ArgMatches<'a>) -> Result<usize, Fault<'a>> {
    let each = count_of_each(asked);
    let words = asked.get_strs(rdm_usage::FIXTURE).unwrap_or(&[]);
    let kinds = words.len().max(1);
    let mut count = if words.is_empty() {
        usize::from(each)
    } else {
        0
    };
    let mut are_alike = true;
    for word in words {
        let share = Share::named(word, each)?;
        if Source::named(Some(share.path)) == Source::Input {
            return Err(Fault::ReadTwice);
        }
        are_alike = are_alike && share.path == *word;
        count = count.saturating_add(usize::from(share.count));
    }
    if count > usize::from(rdm_usage::MOST_FIXTURES) {
        return Err(match are_alike {
            true => Fault::TooManyFixtures(kinds, each),
            false => Fault::TooManyFixtures(count, 1),
        });
    }
    Ok(count)
}

/// The one fixture that is asked for, and by what name messages tell of it.
pub(crate) fn only_one<'a, H: Host>(
    rt: H,
    asked: &ArgMatches<'a>,
) -> Result<(&'a str, Fixture), Fault<'a>> {
    let Some(word) = asked.get_str(rdm_usage::FIXTURE) else {
        return Ok((DEMONSTRATION, demonstration()));
    };
    let share = Share::named(word, 1)?;
    let file = FixtureFile::read(rt, Source::named(Some(share.path)))?;
    let fixture = file.fixture(rt)?;
    Ok((file.name(), fixture))
}

/// All fixtures that are asked for, on one line: so many of each file, or of the demonstration.
pub(crate) fn asked_for<'a, H: Host>(
    rt: H,
    asked: &ArgMatches<'a>,
) -> Result<Line<LiveFixture>, Fault<'a>> {
    let mut line = Line::new(rt.alloc(), collision(asked));
    join_all(rt, asked, &mut line)?;
    Ok(line)
}

/// All fixtures that are asked for join a line.
fn join_all<'a, H: Host>(
    rt: H,
    asked: &ArgMatches<'a>,
    line: &mut Line<LiveFixture>,
) -> Result<(), Fault<'a>> {
    let each = count_of_each(asked);
    let Some(words) = asked.get_strs(rdm_usage::FIXTURE) else {
        return join_each(rt, asked, None, each, line);
    };
    for word in words {
        let share = Share::named(word, each)?;
        let file = FixtureFile::read(rt, Source::named(Some(share.path)))?;
        join_each(rt, asked, Some(&file), share.count, line)?;
    }
    Ok(())
}

/// So many fixtures of this file, or of the demonstration, join a line. Their device IDs are counted up.
fn join_each<'a, H: Host>(
    rt: H,
    asked: &ArgMatches<'a>,
    file: Option<&FixtureFile<'a>>,
    count: u16,
    line: &mut Line<LiveFixture>,
) -> Result<(), Fault<'a>> {
    let name = name_of(file);
    for number in 0..count {
        let mut fixture = match file {
            Some(file) => file.fixture(rt)?,
            None => demonstration(),
        };
        fixture.uid = match counted_up(fixture.uid, number) {
            Some(uid) => uid,
            None => return Err(Fault::TooFewDeviceIds(name, fixture.uid, count)),
        };
        let uid = fixture.uid;
        if let Err(refused) = line.join(live(rt, asked, name, fixture)?) {
            return Err(no_rig(refused.error, name, uid));
        }
    }
    Ok(())
}

/// By what name messages tell of a file's fixture, or of the demonstration.
fn name_of<'a>(file: Option<&FixtureFile<'a>>) -> &'a str {
    match file {
        Some(file) => file.name(),
        None => DEMONSTRATION,
    }
}

/// Why the fixture of this name and with this UID can't join the line.
fn no_rig<'a>(error: JoinError, name: &'a str, uid: Uid) -> Fault<'a> {
    match error {
        JoinError::OutOfMemory => Fault::Memory,
        JoinError::Taken => Fault::TwoOfOneUid(name, uid),
        JoinError::BadUid => Fault::NoDevice,
    }
}

/// The UID whose device ID is this much greater. There is none if no device can have it (E1.20 section 6.2.4).
fn counted_up(uid: Uid, number: u16) -> Option<Uid> {
    let device = uid.device.checked_add(u32::from(number))?;
    if device == Uid::EVERY_DEVICE {
        return None;
    }
    Some(Uid { device, ..uid })
}

/// A fixture that was switched on, with as many sub-devices as are asked for, and shows what its file says that it starts with.
pub(crate) fn live<'a, H: Host>(
    rt: H,
    asked: &ArgMatches<'a>,
    name: &'a str,
    fixture: Fixture,
) -> Result<LiveFixture, Fault<'a>> {
    let Fixture {
        uid,
        mut profile,
        outcomes,
        start,
    } = fixture;
    if let Some(subs) = asked.get_one::<u16>(rdm_usage::SUBS) {
        if asked.contains_id(rdm_usage::FIXTURE) && subs > profile.subs {
            return Err(Fault::TooManySubs(name, profile.subs));
        }
        profile.subs = subs;
    }
    let shown = shown_by(&profile, &start);
    let mut live = LiveFixture::new(rt.alloc(), uid, profile, QUEUE_SIZE, &outcomes)?;
    place_counters(&mut live, &start);
    for sensor in shown.iter().flatten() {
        place(&mut live, Kind::SensorValue, sensor);
    }
    live.follow(followed(rt.alloc(), &start)?);
    live.tell(told(rt.alloc(), &start)?);
    Ok(live)
}

/// The status messages that come by themselves.
fn told(alloc: Global, start: &Starting) -> Result<Vec<Notice>, AllocError> {
    let mut told = Vec::new(alloc);
    for notice in start.notices.iter() {
        told.push(*notice)?;
    }
    Ok(told)
}

/// The sensors that show something over time.
fn followed(alloc: Global, start: &Starting) -> Result<Vec<SensorCourse>, AllocError> {
    let mut followed = Vec::new(alloc);
    for sensor in 0..8u8 {
        if let Some(course) = start.courses.get(usize::from(sensor))
            && !course.points.is_empty()
        {
            let course = copied_course(course);
            followed.push(SensorCourse { sensor, course })?;
        }
    }
    Ok(followed)
}

/// The same course again.
fn copied_course(course: &Course) -> Course {
    Course {
        points: copied_points(&course.points),
        way: course.way,
        repeats: course.repeats,
    }
}

/// The same points again.
fn copied_points(points: &ArrayVec<Point, MOST_POINTS>) -> ArrayVec<Point, MOST_POINTS> {
    match ArrayVec::try_from(points.as_slice()) {
        Ok(points) => points,
        // A list of so many places holds no more.
        Err(_) => unreachable!(),
    }
}

/// What the sensors show of which something is said: what they have measured, or the first of what they show over time.
pub(crate) fn shown_by(profile: &Profile, start: &Starting) -> [Option<[u8; 9]>; 8] {
    let mut shown = [None; 8];
    for number in 0..8u8 {
        let n = usize::from(number);
        let present = present_of(start, n);
        if let (Some(present), Some(sensor)) = (present, profile.sensors.get(n)) {
            shown[n] = Some(shown_at_start(number, present, sensor));
        }
    }
    shown
}

/// What a sensor shows when the fixture is switched on, if something is said of it.
fn present_of(start: &Starting, number: usize) -> Option<i16> {
    let present = start.presents.get(number).copied().flatten();
    let course = start.courses.get(number);
    present.or_else(|| Some(course?.points.first()?.value))
}

/// Places what the counters show, unless it is what they show anyway.
fn place_counters(live: &mut LiveFixture, start: &Starting) {
    for (kind, count) in counters(start) {
        if count != 0 {
            place(live, kind, &count.to_be_bytes());
        }
    }
}

/// What the counters of a fixture show when it starts.
pub(crate) fn counters(start: &Starting) -> [(Kind, u32); 4] {
    [
        (Kind::DeviceHours, start.device_hours),
        (Kind::LampHours, start.lamp_hours),
        (Kind::LampStrikes, start.lamp_strikes),
        (Kind::DevicePowerCycles, start.device_power_cycles),
    ]
}

/// Places a value of the root. A file says nothing of what its fixture lacks, so it isn't refused.
fn place(live: &mut LiveFixture, kind: Kind, bytes: &[u8]) {
    let _ = live.place(ROOT_DEVICE, kind.pid(), bytes);
}

/// How many of each fixture are asked for.
fn count_of_each(asked: &ArgMatches<'_>) -> u16 {
    asked.get_one::<u16>(rdm_usage::COUNT).unwrap_or(1)
}

/// What is on the line if several fixtures answer at once, as it is asked for.
fn collision(asked: &ArgMatches<'_>) -> Collision {
    match asked.get_str(rdm_usage::COLLISION) {
        Some(rdm_usage::FIRST) => Collision::First,
        Some(rdm_usage::RUBBISH) => Collision::Rubbish(SEED),
        _ => Collision::AllBits,
    }
}
