//! Laws of texts in markup. Each is the contract of a call that does nothing.

ghost use Rattle.std.specs.Prelude.{◌≡◌, ℕ, List, All, chars};
ghost use Rattle.std.specs.List.{flat_map};
ghost use Rattle.rdm_markup.specs.Markup.{in_markup, IsPlain};

use crate::Place;

/// No text opens or closes a tag, or ends the value of an attribute, when `put_escaped` puts it.
pub fn escaped_text_has_no_tags()
    ensures { (place : Place) → (text : List ℕ) → All IsPlain (flat_map (in_markup place) (chars text)) }
{}
