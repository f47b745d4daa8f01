//! Points, and what is shown between them.

ghost use Rattle.std.specs.Prelude.{◌≡◌, ◌<◌, ◌≤◌, ◌*◌, ◌/◌, ◌^◌, ◌≤ℤ◌, ◌+ℤ◌, ◌-ℤ◌, neg_ℤ, pos, unsigned_abs, length};
ghost use Rattle.rdm_courses.specs.Courses as says;

use arrayvec::ArrayVec;

/// How many points a course may have.
pub const MOST_POINTS: usize = 16;

/// How many values a sensor may have shown since a look: those of all points, and the one that it shows now.
pub const MOST_SHOWN: usize = 17;

/// What a sensor shows at a time.
#[derive(Clone, Copy, Debug, Default, PartialEq, Eq)]
pub struct Point {
    /// When, in seconds since power-on.
    pub at: u32,
    /// The value (E1.20 section 10.7.2).
    pub value: i16,
}

/// What is shown between two points.
#[derive(Clone, Copy, Debug, PartialEq, Eq)]
pub enum Way {
    /// The value of the earlier one.
    Steps,
    /// The straight line from one to the other.
    Ramp,
}

/// What a sensor shows over time. Without points it says nothing of it.
#[derive(Debug, Drop, PartialEq, Eq)]
pub struct Course {
    /// The points, in the order of their times.
    pub points: ArrayVec<Point, MOST_POINTS>,
    /// What is shown between them.
    pub way: Way,
    /// Whether it begins again at the time of the last point.
    pub repeats: bool,
}

impl Default for Course {
    /// A course without points.
    fn default() -> Course
        ensures { result ≡ says.no_course }
    {
        Course {
            points: ArrayVec::new(),
            way: Way::Steps,
            repeats: false,
        }
    }
}

impl Course {
    /// What the sensor shows at a time, in milliseconds since power-on: nothing before the first point.
    pub fn value_at(&self, now: u64) -> Option<i16>
        ensures { result ≡ says.value_at self.now now }
    {
        shown(self.way, self.points.as_slice(), self.within_round(now))
    }

    /// What the sensor has shown since it was looked at, or since power-on if it never was: the values of the points that have come,
    /// each once, and then what it shows now. Times are in milliseconds since power-on.
    pub fn shown_since(&self, looked: Option<u64>, now: u64) -> ArrayVec<i16, MOST_SHOWN>
        ensures { result.items ≡ says.shown_since self.now looked now }
    {
        let round = self.round();
        let mut values = values_come(round, looked, now, &self.points);
        if let Some(value) = self.value_at(now) {
            values.push(value);
        }
        values
    }

    /// How long a round takes, in milliseconds: 0 if it doesn't repeat.
    fn round(&self) -> u64
        ensures { result ≡ says.round_of self.now }
    {
        let count = self.points.len();
        if self.repeats && count > 0 {
            time_of(&self.points[count - 1])
        } else {
            0
        }
    }

    /// Which time of the round it is.
    fn within_round(&self, now: u64) -> u64
        ensures { result ≡ says.within_round self.now now }
    {
        let round = self.round();
        if round == 0 { now } else { now % round }
    }
}

/// When a point comes first, in milliseconds.
fn time_of(point: &Point) -> u64
    ensures value { result ≡ says.time_of point.now }
    ensures within { result < 2 ^ 43 }
{
    let at = point.at;
    1000 * u64::from(at)
}

// ---- the value at a time

/// What is shown at a time: nothing before the first point.
fn shown(way: Way, points: &[Point], time: u64) -> Option<i16>
    ensures { result ≡ says.shown way points.now time }
{
    let [first, rest @ ..] = points else {
        return None;
    };
    if time_of(first) <= time {
        Some(held(way, first, rest, time))
    } else {
        None
    }
}

/// What is shown at a time by which this point has come.
fn held(way: Way, first: &Point, rest: &[Point], time: u64) -> i16
    requires { says.time_of first.now ≤ time }
    ensures { result ≡ says.held way first.now rest.now time }
{
    let mut point = *first;
    for next in rest {
        if time < time_of(next) {
            return between(way, &point, next, time);
        }
        point = *next;
    }
    point.value
}

/// What is shown between two points.
fn between(way: Way, earlier: &Point, later: &Point, time: u64) -> i16
    requires come { says.time_of earlier.now ≤ time }
    requires to_come { time < says.time_of later.now }
    ensures { result ≡ says.between way earlier.now later.now time }
{
    match way {
        Way::Steps => earlier.value,
        Way::Ramp => {
            let start = time_of(earlier);
            on_line(
                earlier.value,
                later.value,
                time - start,
                time_of(later) - start,
            )
        }
    }
}

/// What is shown on the line from one value to another.
fn on_line(from: i16, to: i16, passed: u64, whole: u64) -> i16
    requires part { passed < whole }
    requires within { whole < 2 ^ 43 }
    ensures { result ≡ says.on_line from to passed whole }
{
    if from <= to {
        higher(from, part_of(rise(from, to), passed, whole))
    } else {
        lower(from, part_of(rise(to, from), passed, whole))
    }
}

/// A value that is so much higher.
fn higher(value: i16, by: u64) -> i16
    requires little { by ≤ 0xFFFF }
    requires within { (value +ℤ pos by) ≤ℤ pos 0x7FFF }
    ensures { result ≡ value +ℤ pos by }
{
    (i64::from(value) + by as i64) as i16
}

/// A value that is so much lower.
fn lower(value: i16, by: u64) -> i16
    requires little { by ≤ 0xFFFF }
    requires within { neg_ℤ (pos 0x8000) ≤ℤ (value -ℤ pos by) }
    ensures { result ≡ value -ℤ pos by }
{
    (i64::from(value) - by as i64) as i16
}

/// How much higher the second value is.
fn rise(low: i16, high: i16) -> u64
    requires { low ≤ℤ high }
    ensures value { result ≡ unsigned_abs (high -ℤ low) }
    ensures within { result ≤ 0xFFFF }
{
    (i64::from(high) - i64::from(low)) as u64
}

/// That part of it which has passed.
fn part_of(rise: u64, passed: u64, whole: u64) -> u64
    requires little { rise ≤ 0xFFFF }
    requires part { passed < whole }
    requires within { whole < 2 ^ 43 }
    ensures value { result ≡ rise * passed / whole }
    ensures less { result ≤ rise }
{
    rise * passed / whole
}

// ---- what came since

/// The values of the points that have come since the look, in their order.
fn values_come(
    round: u64,
    looked: Option<u64>,
    now: u64,
    points: &ArrayVec<Point, MOST_POINTS>,
) -> ArrayVec<i16, MOST_SHOWN>
    ensures value { result.items ≡ says.values_come round looked now points.now.items }
    ensures within { length result.items ≤ 16 }
{
    let mut values = ArrayVec::new();
    for point in points.iter() {
        if has_come(round, looked, now, point) {
            values.push(point.value);
        }
    }
    values
}

/// Whether a point has come by now, and since the look.
fn has_come(round: u64, looked: Option<u64>, now: u64, point: &Point) -> bool
    ensures { result ≡ says.has_come round looked now point.now }
{
    comes(round, looked, now, time_of(point))
}

/// Whether what comes first at this time, and again in each round, has come by now, and since the look.
pub(crate) fn comes(round: u64, looked: Option<u64>, now: u64, first: u64) -> bool
    ensures { result ≡ says.comes round looked now first }
{
    first <= now && is_new(round, looked, now, first)
}

/// Whether it is new since the look.
fn is_new(round: u64, looked: Option<u64>, now: u64, first: u64) -> bool
    requires { first ≤ now }
    ensures { result ≡ says.is_new round looked now first }
{
    match looked {
        Some(looked) => {
            looked < first || (round != 0 && (looked - first) / round < (now - first) / round)
        }
        None => true,
    }
}
