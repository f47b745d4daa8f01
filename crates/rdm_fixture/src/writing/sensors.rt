//! The sensors, each with what it has measured and what it shows over time.

ghost use Rattle.std.specs.Prelude.{◌≡◌, false, IsTrue, IfOk, IfSome, Some, None, All, length, option_map};
ghost use Rattle.toml.specs.Data.{table as table_data};
ghost use Rattle.toml.specs.View.{view, table_view};
ghost use Rattle.rdm_fixture.specs.Describable.{are_printable};
ghost use Rattle.rdm_fixture_keys.specs.Entries.{IsSensor};
ghost use Rattle.rdm_courses.specs.declared.course.Way.TheVariants.{Steps};
ghost use Rattle.rdm_fixture_keys.specs.Keys.{may};
ghost use Rattle.rdm_fixture_keys.specs.Values.{flag};
ghost use Rattle.rdm_fixture.specs.Lists.{ListAt, OfTable};
ghost use Rattle.rdm_fixture.specs.OverTime.{IsPoint, IsCourse, AreCourses, misfit, way as says_way};
ghost use Rattle.rdm_fixture.specs.Starting.{SaysPresent, measured};
ghost use Rattle.rdm_fixture.specs.Writing.{IsPlain};

use super::fields::{
    ToEntry, list_of, put, put_byte, put_flag, put_long, put_named_byte, put_signed, put_text,
};
use rdm_courses::{Course, Point, Way};
use rdm_device::SensorDef;
use rdm_standard_names::NameKind;
use std::alloc::{AllocError, Global};
use toml::{Table, Value};

/// The list of the sensors, of what they have measured and of what they show over time, or nothing if there are none.
pub(super) fn sensors_of(
    alloc: Global,
    sensors: &[SensorDef],
    presents: &[Option<i16>],
    courses: &[Course],
) -> Result<Option<Value>, AllocError>
    requires presents { length presents.now ≡ length sensors.now }
    requires courses { length courses.now ≡ length sensors.now }
    ensures sensors { IfOk result (λ v. All (λ s. IsTrue (are_printable s.name)) sensors.now → ListAt (OfTable IsSensor) (option_map view v) sensors.now) }
    ensures presents { IfOk result (λ v. ListAt (OfTable SaysPresent) (option_map view v) presents.now) }
    ensures courses { IfOk result (λ v. AreCourses courses.now sensors.now → ListAt (OfTable IsCourse) (option_map view v) courses.now) }
    ensures plain { IfOk result (λ v. IfSome v (λ x. IsPlain 4 (view x))) }
{
    if sensors.is_empty() {
        return Ok(None);
    }
    let mut entries = Vec::new(alloc);
    for n in 0..sensors.len() {
        let table = sensor_table(alloc, &sensors[n], presents[n], &courses[n])?;
        entries.push(Value::Table(table))?;
    }
    Ok(Some(Value::Array(entries)))
}

fn sensor_table(
    alloc: Global,
    sensor: &SensorDef,
    present: Option<i16>,
    course: &Course,
) -> Result<Table, AllocError>
    ensures sensor { IfOk result (λ t. IsTrue (are_printable sensor.now.name) → IsSensor (table_view t) sensor.now) }
    ensures present { IfOk result (λ t. SaysPresent (table_view t) present) }
    ensures course { IfOk result (λ t. misfit course.now sensor.now.at_once ≡ None → IsCourse (table_view t) course.now) }
    ensures plain { IfOk result (λ t. IsPlain 3 (table_data (table_view t))) }
{
    let mut table = Table::new(alloc);
    put_named_byte(alloc, &mut table, "type", NameKind::Sensors, sensor.kind)?;
    put_named_byte(alloc, &mut table, "unit", NameKind::Units, sensor.unit)?;
    put_named_byte(
        alloc,
        &mut table,
        "prefix",
        NameKind::Prefixes,
        sensor.prefix,
    )?;
    put_signed(alloc, &mut table, "range_minimum_value", sensor.low)?;
    put_signed(alloc, &mut table, "range_maximum_value", sensor.high)?;
    put_signed(alloc, &mut table, "normal_minimum_value", sensor.normal_low)?;
    put_signed(
        alloc,
        &mut table,
        "normal_maximum_value",
        sensor.normal_high,
    )?;
    put_byte(alloc, &mut table, "recorded_value_support", sensor.support)?;
    put_text(alloc, &mut table, "description", &sensor.name)?;
    put_flag(alloc, &mut table, "answered_at_once", sensor.at_once)?;
    put(alloc, &mut table, "present", present_of(present))?;
    let points = list_of(alloc, course.points.as_slice())?;
    put(alloc, &mut table, "over_time", points)?;
    put(alloc, &mut table, "course", way_of(alloc, course.way)?)?;
    put(alloc, &mut table, "repeats", repeats_of(course.repeats))?;
    Ok(table)
}

impl ToEntry for Point {
    ghost says = { λ _. IsPoint };

    ghost can = { λ _ _. Unit {0} };

    ghost deep = { 1 };

    fn to_entry(&self, alloc: Global) -> Result<Table, AllocError> {
        let mut table = Table::new(alloc);
        put_long(alloc, &mut table, "at", self.at)?;
        put_signed(alloc, &mut table, "value", self.value)?;
        Ok(table)
    }
}

/// The way from one point to the next, unless it goes by steps.
fn way_of(alloc: Global, way: Way) -> Result<Option<Value>, AllocError>
    ensures says { IfOk result (λ v. may Steps says_way (option_map view v) ≡ Some way) }
    ensures plain { IfOk result (λ v. IfSome v (λ x. IsPlain 0 (view x))) }
{
    match way {
        Way::Steps => Ok(None),
        Way::Ramp => Ok(Some(Value::string(alloc, "ramp")?)),
    }
}

/// That the course repeats, if it does.
fn repeats_of(repeats: bool) -> Option<Value>
    ensures says { may false flag (option_map view result) ≡ Some repeats }
    ensures plain { IfSome result (λ v. IsPlain 0 (view v)) }
{
    if repeats {
        Some(Value::from(true))
    } else {
        None
    }
}

/// What a sensor has measured, if it has.
fn present_of(present: Option<i16>) -> Option<Value>
    ensures says { may None measured (option_map view result) ≡ Some present }
    ensures plain { IfSome result (λ v. IsPlain 0 (view v)) }
{
    match present {
        Some(present) => Some(Value::from(i32::from(present))),
        None => None,
    }
}
