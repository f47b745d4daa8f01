//! Laws of settings. Each is the contract of a call that does nothing.

ghost use Rattle.std.specs.Prelude.{◌≡◌, ◌↔◌, ℕ, List, IsTrue};
ghost use Rattle.rdm_survey.specs.Csv.{guarded};
ghost use Rattle.rdm_settings.specs.Cells.{unguarded};
ghost use Rattle.rdm_settings.specs.declared.setting.Setting.{Setting as TheSetting};

use crate::Setting;

/// A text that a list of fixtures has in its CSV is set as it is, whether the list put an apostrophe before it or not.
pub fn guarded_text_is_read_back()
    ensures { (text : List ℕ) → unguarded (guarded text) ≡ text }
{}

/// Two settings are equal by `==` exactly when each field is.
pub fn settings_are_equal_by_value()
    ensures { (a b : TheSetting) → IsTrue (⟦<Setting as PartialEq>⟧.eq a b) ↔ (a ≡ b) }
{}
