//! The numbers that the slots of a parameter say.

ghost use Rattle.std.specs.Prelude.{◌≡◌, None, IfErr, IfSome, codes};
ghost use Rattle.toml.specs.Data.{get_member};
ghost use Rattle.toml.specs.View.{view, table_view};
ghost use Rattle.rdm_fixture_keys.specs.Faults.{told};
ghost use Rattle.rdm_fixture.specs.FirstWrong.{fields_part, AreFields};
ghost use Rattle.rdm_fixture_keys.specs.Keys.{must, may, Reads};
ghost use Rattle.rdm_fixture.specs.Parameters as says;
ghost use Rattle.rdm_fixture.specs.Parameters.{IsField};
ghost use Rattle.rdm_fixture_keys.specs.Values.{number};

use crate::lists::{FromEntry, list};
use arrayvec::ArrayVec;
use rdm_device::{Field, Width};
use rdm_fixture_keys::keys::{find, integer_in, only};
use rdm_fixture_keys::{Agreement, Refusal, Wanted};
use toml::{Table, Value};

/// The numbers that slots say, one after another. Whatever is wrong in them is told of their key.
pub(super) fn fields(table: &Table) -> Result<ArrayVec<Field, 8>, Refusal>
    ensures read { Reads (λ t fs. AreFields t fs.items) (table_view table.now) result }
    ensures wrong { IfErr result (λ e. fields_part.Wrong (table_view table.now) (told e)) }
{
    match list(table, "fields", 0, 0) {
        Ok(fields) => Ok(fields),
        Err(_) => Err(Refusal::at("fields", Wanted::Agreement(Agreement::Fields))),
    }
}

impl FromEntry for Field {
    ghost says = { λ _. IsField };

    // Whatever is wrong in it is told of the key of the list.
    ghost wrong = { λ _ _ _. Unit {0} };

    fn from_entry(table: &Table, _slots: u16) -> Result<Field, Refusal> {
        match field(table) {
            Some(field) => Ok(field),
            None => Err(Refusal::at("fields", Wanted::Agreement(Agreement::Fields))),
        }
    }
}

/// The number that a table says.
fn field(table: &Table) -> Option<Field>
    ensures some { IfSome result (IsField (table_view table.now)) }
    ensures none { result ≡ None → (f : Field) → ¬ IsField (table_view table.now) f }
{
    let keys = [
        "slots",
        "minimum_valid_value",
        "maximum_valid_value",
        "also_valid_value",
    ];
    if only(table, &keys).is_err() {
        return None;
    }
    let width = width(table)?;
    let low = number_at(table, "minimum_valid_value", 0)?;
    let high = number_at(table, "maximum_valid_value", greatest_of(width))?;
    let also = number_at(table, "also_valid_value", low)?;
    Some(Field {
        width,
        low,
        high,
        also,
    })
}

/// A number of up to four slots, which is this one if it is left out.
fn number_at(table: &Table, key: &str, default: u32) -> Option<u32>
    ensures { result ≡ may default (number 0 0xFFFFFFFF) (get_member key.now (table_view table.now)) }
{
    match find(table, key) {
        Some(value) => integer_in(value, 0, 0xFFFF_FFFF),
        None => Some(default),
    }
}

/// How many slots a number has.
fn width(table: &Table) -> Option<Width>
    ensures { result ≡ must says.width (get_member (codes "slots") (table_view table.now)) }
{
    width_in(find(table, "slots")?)
}

fn width_in(value: &Value) -> Option<Width>
    ensures { result ≡ says.width (view value.now) }
{
    match integer_in(value, 1, 4)? {
        1 => Some(Width::One),
        2 => Some(Width::Two),
        4 => Some(Width::Four),
        _ => None,
    }
}

/// The greatest number of so many slots.
fn greatest_of(width: Width) -> u32
    ensures { result ≡ says.greatest_said width }
{
    match width {
        Width::One => 0xFF,
        Width::Two => 0xFFFF,
        Width::Four => 0xFFFF_FFFF,
    }
}
