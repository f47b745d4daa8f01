//! The names that the tables of the standard give (E1.20 appendices A to C).

ghost use Rattle.std.specs.Prelude.{◌≡◌, option_map};
ghost use Rattle.rdm_health.specs.SensorNames.{prefix_symbol, sensor_type, unit_symbol};
ghost use Rattle.rdm_health.specs.StatusNames.{lamp_state, slot_label, status_text};

use rdm_standard_names::sensors::{SENSOR_TYPES, SENSOR_UNITS, UNIT_PREFIXES};
use rdm_standard_names::slots::SLOT_LABELS;
use rdm_words::tables::settings::LAMP_STATES;
use rdm_words::tables::statuses::STATUS_IDS;

/// What a sensor measures (table A-12).
#[tactic(auto, unfolding(crate::specs::SensorNames::sensor_type))]
pub(crate) fn sensor_type(kind: u8) -> Option<&'static str>
    ensures { option_map (λ text. text.now) result ≡ sensor_type kind }
{
    SENSOR_TYPES.name(u32::from(kind))
}

/// The symbol of a unit, empty for none (table A-13).
#[tactic(auto, unfolding(crate::specs::SensorNames::unit_symbol))]
pub(crate) fn unit_symbol(unit: u8) -> Option<&'static str>
    ensures { option_map (λ text. text.now) result ≡ unit_symbol unit }
{
    SENSOR_UNITS.name(u32::from(unit))
}

/// The symbol of the prefix of a unit, empty for none (table A-14).
#[tactic(auto, unfolding(crate::specs::SensorNames::prefix_symbol))]
pub(crate) fn prefix_symbol(prefix: u8) -> Option<&'static str>
    ensures { option_map (λ text. text.now) result ≡ prefix_symbol prefix }
{
    UNIT_PREFIXES.name(u32::from(prefix))
}

/// The text of a status ID, with `%d`, `%x` and `%L` for its values (table B-2).
#[tactic(auto, unfolding(crate::specs::StatusNames::status_text))]
pub(crate) fn status_text(id: u16) -> Option<&'static str>
    ensures { option_map (λ text. text.now) result ≡ status_text id }
{
    STATUS_IDS.name(u32::from(id))
}

/// What a primary slot controls (table C-2).
#[tactic(auto, unfolding(crate::specs::StatusNames::slot_label))]
pub(crate) fn slot_label(id: u16) -> Option<&'static str>
    ensures { option_map (λ text. text.now) result ≡ slot_label id }
{
    SLOT_LABELS.name(u32::from(id))
}

/// The state of a lamp (table A-8).
#[tactic(auto, unfolding(crate::specs::StatusNames::lamp_state))]
pub(crate) fn lamp_state(state: u8) -> Option<&'static str>
    ensures { option_map (λ text. text.now) result ≡ lamp_state state }
{
    LAMP_STATES.name(u32::from(state))
}
