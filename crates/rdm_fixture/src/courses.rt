//! What a sensor shows over time.

ghost use Rattle.std.specs.Prelude.{◌≡◌, ◌↔◌, ◌==◌, ◌∷◌, None, Some, IfErr, IfSome, IsTrue, length, codes};
ghost use Rattle.std.specs.Result.{result_ok};
ghost use Rattle.std.specs.List.{list_all};
ghost use Rattle.toml.specs.Data.{get_member};
ghost use Rattle.toml.specs.View.{view, table_view};
ghost use Rattle.rdm_fixture_keys.specs.Faults.{fault, told};
ghost use Rattle.rdm_fixture_keys.specs.Keys.{must, may, Reads};
ghost use Rattle.rdm_fixture_keys.specs.Values.{number, signed};
ghost use Rattle.rdm_fixture_keys.specs.Wrong as parts;
ghost use Rattle.rdm_fixture_keys.specs.Wrong.{FirstWrong};
ghost use Rattle.rdm_fixture_keys.specs.declared.refusal.Agreement.TheVariants as agreements;
ghost use Rattle.rdm_fixture_keys.specs.declared.refusal.Wanted.TheVariants as wanted;
ghost use Rattle.rdm_courses.specs.declared.course.Way.TheVariants.{Steps};
ghost use Rattle.rdm_fixture.specs.OverTime as says;
ghost use Rattle.rdm_fixture.specs.OverTime.{IsPoint, SaysCourse, IsCourse};

use crate::lists::{FromEntry, list};
use arrayvec::ArrayVec;
use rdm_courses::{Course, MOST_POINTS, Point, Way};
use rdm_device::SensorDef;
use rdm_fixture_keys::keys::{find, flag_or, integer_in, only, signed_in};
use rdm_fixture_keys::{Agreement, Refusal, Wanted};
use toml::{Table, Value};

/// Sensors of which nothing is said.
pub fn no_courses(sensors: &ArrayVec<SensorDef, 8>) -> ArrayVec<Course, 8>
    ensures { result.items ≡ says.no_courses sensors.now.items }
{
    let mut courses = ArrayVec::new();
    for _sensor in sensors.iter() {
        courses.push(Course::default());
    }
    courses
}

impl FromEntry for Course {
    ghost says = { λ _. IsCourse };

    ghost wrong = { λ _. FirstWrong says.course_parts };

    fn from_entry(table: &Table, _slots: u16) -> Result<Course, Refusal> {
        let course = said_course(table)?;
        let at_once = flag_or(table, "answered_at_once", false)?;
        match misfit(&course, at_once) {
            Some(why) => Err(Refusal::at(misfit_key(why), Wanted::Agreement(why))),
            None => Ok(course),
        }
    }
}

/// What the keys of a sensor say.
fn said_course(table: &Table) -> Result<Course, Refusal>
    ensures read { Reads SaysCourse (table_view table.now) result }
    ensures wrong { IfErr result (λ e. FirstWrong says.said_parts (table_view table.now) (told e)) }
{
    Ok(Course {
        points: points(table)?,
        way: way_or_steps(table)?,
        repeats: flag_or(table, "repeats", false)?,
    })
}

// ---- the points

/// The points. Whatever is wrong in them is told of their key.
fn points(table: &Table) -> Result<ArrayVec<Point, MOST_POINTS>, Refusal>
    ensures read { Reads (λ t ps. says.ArePoints t ps.items) (table_view table.now) result }
    ensures wrong { IfErr result (λ e. says.points_part.Wrong (table_view table.now) (told e)) }
{
    match list(table, "over_time", 0, 0) {
        Ok(points) => Ok(points),
        Err(_) => Err(no_points()),
    }
}

fn no_points() -> Refusal
    ensures { told result ≡ fault (codes "over_time") (wanted.Agreement agreements.Points) }
{
    Refusal::at("over_time", Wanted::Agreement(Agreement::Points))
}

impl FromEntry for Point {
    ghost says = { λ _. IsPoint };

    // Whatever is wrong in it is told of the key of the list.
    ghost wrong = { λ _ _ _. Unit {0} };

    fn from_entry(table: &Table, _slots: u16) -> Result<Point, Refusal> {
        match point(table) {
            Some(point) => Ok(point),
            None => Err(no_points()),
        }
    }
}

/// The point that a table says.
fn point(table: &Table) -> Option<Point>
    ensures some { IfSome result (IsPoint (table_view table.now)) }
    ensures none { result ≡ None → (p : Point) → ¬ IsPoint (table_view table.now) p }
{
    if only(table, &["at", "value"]).is_err() {
        return None;
    }
    let at = time_at(table)?;
    let value = value_at(table)?;
    Some(Point { at, value })
}

fn time_at(table: &Table) -> Option<u32>
    ensures { result ≡ must (number 0 0xFFFFFFFF) (get_member (codes "at") (table_view table.now)) }
{
    integer_in(find(table, "at")?, 0, 0xFFFF_FFFF)
}

fn value_at(table: &Table) -> Option<i16>
    ensures { result ≡ must signed (get_member (codes "value") (table_view table.now)) }
{
    match signed_in(find(table, "value")?, "value") {
        Ok(value) => Some(value),
        Err(_) => None,
    }
}

// ---- the way from one to the next

fn way_or_steps(table: &Table) -> Result<Way, Refusal>
    ensures value { result_ok result ≡ may Steps says.way (get_member (codes "course") (table_view table.now)) }
    ensures wrong { IfErr result (λ e. (parts.free (codes "course") says.way (wanted.Agreement agreements.Way)).Wrong (table_view table.now) (told e)) }
{
    match find(table, "course") {
        Some(value) => match way(value) {
            Some(way) => Ok(way),
            None => Err(Refusal::at("course", Wanted::Agreement(Agreement::Way))),
        },
        None => Ok(Way::Steps),
    }
}

fn way(value: &Value) -> Option<Way>
    ensures { result ≡ says.way (view value.now) }
{
    match value {
        Value::String(word) => way_named(word.as_str()),
        _ => None,
    }
}

fn way_named(word: &str) -> Option<Way>
    ensures { result ≡ says.way_named word.now }
{
    match word {
        "steps" => Some(Way::Steps),
        "ramp" => Some(Way::Ramp),
        _ => None,
    }
}

// ---- what has to hold of it

/// Why it can't be the course of a sensor that is answered at once, or isn't.
#[tactic(auto, unfolding(crate::specs::OverTime::misfit))]
pub(crate) fn misfit(course: &Course, at_once: bool) -> Option<Agreement>
    ensures { result ≡ says.misfit course.now at_once }
{
    let points = course.points.as_slice();
    if !rises(points) {
        return Some(Agreement::Rising);
    }
    if course.repeats && !has_round(points) {
        return Some(Agreement::Rounds);
    }
    if !at_once && !points.is_empty() {
        return Some(Agreement::AtOnce);
    }
    None
}

/// The key that is wrong then.
fn misfit_key(why: Agreement) -> &'static str
    ensures { result.now ≡ says.misfit_key why }
{
    match why {
        Agreement::Rounds => "repeats",
        _ => "over_time",
    }
}

/// Whether each point comes after the one before.
fn rises(points: &[Point]) -> bool
    ensures { result ≡ says.rises points.now }
{
    let [first, rest @ ..] = points else {
        return true;
    };
    rise(first, rest)
}

fn rise(first: &Point, rest: &[Point]) -> bool
    ensures { result ≡ says.rises (first.now ∷ rest.now) }
{
    let mut before = *first;
    for point in rest {
        if point.at <= before.at {
            return false;
        }
        before = *point;
    }
    true
}

/// Whether there are two points or more, the first at 0.
fn has_round(points: &[Point]) -> bool
    ensures { result ≡ says.has_round points.now }
{
    match points {
        [first, _, ..] => first.at == 0,
        _ => false,
    }
}

/// Whether each sensor, and no other, has a course that can be its own.
pub(crate) fn are_courses(courses: &[Course], sensors: &[SensorDef]) -> bool
    ensures { IsTrue result ↔ says.AreCourses courses.now sensors.now }
{
    courses.len() == sensors.len() && all_fit(courses, sensors)
}

fn all_fit(courses: &[Course], sensors: &[SensorDef]) -> bool
    requires { length courses.now ≡ length sensors.now }
    ensures { IsTrue result ↔ says.AreCourses courses.now sensors.now }
{
    for n in 0..courses.len() {
        if misfit(&courses[n], sensors[n].at_once).is_some() {
            return false;
        }
    }
    true
}

/// Whether nothing is said of any sensor.
pub(crate) fn say_nothing(courses: &[Course]) -> bool
    ensures { result ≡ list_all (λ c. length c.points.items == 0) courses.now }
{
    courses.iter().all(|course| course.points.is_empty())
}
