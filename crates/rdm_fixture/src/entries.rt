//! Personalities, slots, sensors, self tests, status IDs and the names of choices, as entries of lists.

ghost use Rattle.rdm_fixture_keys.specs.Entries.{IsPersonality, IsSlot, IsSensor, IsSelfTest, IsStatus, IsChoice, personality_parts, slot_parts, sensor_parts, self_test_parts, status_parts, choice_parts};
ghost use Rattle.rdm_fixture_keys.specs.Wrong.{FirstWrong};

use crate::lists::FromEntry;
use rdm_device::{ChoiceName, Personality, SelfTest, SensorDef, Slot, StatusText};
use rdm_fixture_keys::Refusal;
use rdm_fixture_keys::entries::{choice_name, personality, self_test, sensor, slot, status_text};
use toml::Table;

impl FromEntry for Personality {
    ghost says = { IsPersonality };

    ghost wrong = { λ slots. FirstWrong (personality_parts slots) };

    fn from_entry(table: &Table, slots: u16) -> Result<Personality, Refusal> {
        personality(table, slots)
    }
}

impl FromEntry for Slot {
    ghost says = { λ _. IsSlot };

    ghost wrong = { λ _. FirstWrong slot_parts };

    fn from_entry(table: &Table, _slots: u16) -> Result<Slot, Refusal> {
        slot(table)
    }
}

impl FromEntry for SensorDef {
    ghost says = { λ _. IsSensor };

    ghost wrong = { λ _. FirstWrong sensor_parts };

    fn from_entry(table: &Table, _slots: u16) -> Result<SensorDef, Refusal> {
        sensor(table)
    }
}

impl FromEntry for SelfTest {
    ghost says = { λ _. IsSelfTest };

    ghost wrong = { λ _. FirstWrong self_test_parts };

    fn from_entry(table: &Table, _slots: u16) -> Result<SelfTest, Refusal> {
        self_test(table)
    }
}

impl FromEntry for StatusText {
    ghost says = { λ _. IsStatus };

    ghost wrong = { λ _. FirstWrong status_parts };

    fn from_entry(table: &Table, _slots: u16) -> Result<StatusText, Refusal> {
        status_text(table)
    }
}

impl FromEntry for ChoiceName {
    ghost says = { λ _. IsChoice };

    ghost wrong = { λ _. FirstWrong choice_parts };

    fn from_entry(table: &Table, _slots: u16) -> Result<ChoiceName, Refusal> {
        choice_name(table)
    }
}
