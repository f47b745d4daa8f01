//! Laws of what is read and said. Each is the contract of a call that does nothing.

ghost use Rattle.std.specs.Prelude.{◌≡◌, ◌<◌, ℕ, ℤ, List, IfSome, true};
ghost use Rattle.std.specs.List.{AllByRecursion, flat_map};
ghost use Rattle.rdm_health.specs.Statuses.{entry_slots, status_entries_in};
ghost use Rattle.rdm_health.specs.Verdicts.{IsRight, is_normal, verdict_of};
ghost use Rattle.rdm_health.specs.declared.sensors.SensorDefinition.{SensorDefinition};
ghost use Rattle.rdm_health.specs.declared.verdict.Verdict.TheVariants as verdict;

/// The slots of the entries, one after the other, are the data: each is there, once and in order.
#[tactic(auto, using(crate::proofs::Entries::in_slots))]
pub fn status_entries_are_the_data()
    ensures { (slots : List ℕ) → AllByRecursion (λ byte. byte < 256) slots → IfSome (status_entries_in slots) (λ entries. flat_map entry_slots entries ≡ slots) }
{}

/// A value in the normal range is fine, whatever the range of the sensor.
pub fn normal_values_are_fine()
    ensures { (d : SensorDefinition) → (v : ℤ) → is_normal d v ≡ true → verdict_of d v ≡ verdict.Fine }
{}

/// What is said of a value is so: below or above a normal range it is, and out of range it is.
pub fn verdicts_are_right()
    ensures { (d : SensorDefinition) → (v : ℤ) → IsRight (verdict_of d v) d v }
{}
