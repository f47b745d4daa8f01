//! Laws of what is written and of clashes. Each is the contract of a call that does nothing.

ghost use Rattle.std.specs.Prelude.{◌≡◌, ◌≤◌, ◌<◌, ◌↔◌, ℕ, List, IsTrue, length, map, true};
ghost use Rattle.std.specs.List.{AllByRecursion};
ghost use Rattle.csv.specs.Reading.{default_config, records_from};
ghost use Rattle.csv.specs.declared.parser.State.TheVariants as state;
ghost use Rattle.rdm_survey.specs.Csv.{csv_text, guarded, records, unguarded};
ghost use Rattle.rdm_survey.specs.Members.{keys, members};
ghost use Rattle.rdm_survey.specs.Places.{meets, Takes};
ghost use Rattle.rdm_survey.specs.Shown.{shown, unshown};
ghost use Rattle.rdm_survey.specs.declared.partner.Partner.{Partner};
ghost use Rattle.rdm_survey.specs.declared.place.Place.{Place};
ghost use Rattle.rdm_survey.specs.declared.device_info.DeviceInfo.{DeviceInfo as TheDeviceInfo};
ghost use Rattle.rdm_survey.specs.declared.row.Row.{Row};

use crate::DeviceInfo;

/// A reader of CSV finds in what is written exactly the records: the keys, and what is said of each fixture.
#[tactic(auto, using(crate::proofs::ReadBack::csv_read_back))]
pub fn csv_is_read_back()
    ensures { (rows : List Row) → records_from default_config (length (records rows)) state.StartRecord (csv_text rows) ≡ records rows }
{}

/// What is said of each fixture has the keys of the first line of CSV, in their order.
#[tactic(auto, using(crate::proofs::ReadBack::same_keys))]
pub fn members_have_the_keys()
    ensures { (row : Row) → (others : List Partner) → map (λ m. m.0) (members row others) ≡ keys }
{}

/// No byte of a text of a fixture is lost.
#[tactic(auto, using(crate::proofs::Unshowing::read_back))]
pub fn shown_text_is_read_back()
    ensures { (text : List ℕ) → AllByRecursion (λ byte. byte < 256) text → unshown (shown text) ≡ text }
{}

/// Nothing is lost by the apostrophe before what a spreadsheet could take for a formula.
#[tactic(auto, using(crate::proofs::ReadBack::guard_off))]
pub fn guarded_word_is_read_back()
    ensures { (word : List ℕ) → unguarded (guarded word) ≡ word }
{}

/// Two places meet exactly when there is a slot that both take.
#[tactic(auto, using(crate::proofs::ReadBack::in_a_slot))]
pub fn places_meet_in_a_slot()
    ensures { (a b : Place) → a.first ≤ a.last → b.first ≤ b.last → (meets a b ≡ true) ↔ ((slot : ℕ) × (Takes a slot × Takes b slot)) }
{}

/// What two replies to DEVICE_INFO tell is equal by `==` exactly when each field is.
pub fn device_infos_are_equal_by_value()
    ensures { (a b : TheDeviceInfo) → IsTrue (⟦<DeviceInfo as PartialEq>⟧.eq a b) ↔ (a ≡ b) }
{}
