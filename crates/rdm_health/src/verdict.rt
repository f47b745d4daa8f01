//! What is said of the value of a sensor.

ghost use Rattle.std.specs.Prelude.{◌≡◌};
ghost use Rattle.rdm_health.specs.Verdicts.{is_normal, is_within, tells_normal, verdict_of, verdict_on, verdict_word};

use crate::{SensorDefinition, SensorValue};

/// What is said of the value of a sensor, by its definition (E1.20 section 10.7.1).
#[derive(Clone, Copy, Debug, PartialEq, Eq)]
pub enum Verdict {
    /// It is in the normal range, or none is defined.
    Fine,
    /// It is below the normal range.
    BelowNormal,
    /// It is above the normal range.
    AboveNormal,
    /// It isn't even in the range of the sensor.
    OutOfRange,
    /// The value or the definition isn't told.
    NotTold,
}

impl Verdict {
    /// In words, such as `below normal`.
    pub fn name(self) -> &'static str
        ensures { result.now ≡ verdict_word self }
    {
        match self {
            Verdict::Fine => "ok",
            Verdict::BelowNormal => "below normal",
            Verdict::AboveNormal => "above normal",
            Verdict::OutOfRange => "out of range",
            Verdict::NotTold => "not reported",
        }
    }

    /// What is said of a value by a definition, if both are told.
    pub fn on(definition: &Option<SensorDefinition>, value: &Option<SensorValue>) -> Verdict
        ensures { result ≡ verdict_on definition.now value.now }
    {
        match (definition, value) {
            (Some(definition), Some(value)) => verdict_of(definition, value.present),
            _ => Verdict::NotTold,
        }
    }
}

/// What is said of a value by a definition.
fn verdict_of(definition: &SensorDefinition, value: i16) -> Verdict
    ensures { result ≡ verdict_of definition.now value }
{
    if is_normal(definition, value) {
        Verdict::Fine
    } else if !is_within(definition.lowest, definition.highest, value) {
        Verdict::OutOfRange
    } else if value < definition.normal_lowest {
        Verdict::BelowNormal
    } else if definition.normal_highest < value {
        Verdict::AboveNormal
    } else {
        Verdict::Fine
    }
}

/// Whether a value is in the normal range, if that is defined.
fn is_normal(definition: &SensorDefinition, value: i16) -> bool
    ensures { result ≡ is_normal definition.now value }
{
    tells_normal(definition)
        && is_within(definition.normal_lowest, definition.normal_highest, value)
}

/// Whether an end of the normal range is defined.
fn tells_normal(definition: &SensorDefinition) -> bool
    ensures { result ≡ tells_normal definition.now }
{
    i16::MIN < definition.normal_lowest || definition.normal_highest < i16::MAX
}

/// Whether a value is in a range. An end that isn't defined leaves none out.
fn is_within(lowest: i16, highest: i16, value: i16) -> bool
    ensures { result ≡ is_within lowest highest value }
{
    lowest <= value && value <= highest
}
