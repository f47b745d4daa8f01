//! The least and the greatest value of a parameter.

ghost use Rattle.std.specs.Prelude.{◌≡◌, IfErr};
ghost use Rattle.std.specs.Result.{result_ok};
ghost use Rattle.toml.specs.View.{table_view};
ghost use Rattle.rdm_fixture_keys.specs.Faults.{told};
ghost use Rattle.rdm_fixture.specs.FirstWrong.{least_part, greatest_part};
ghost use Rattle.rdm_fixture.specs.Parameters as says;

use rdm_device::Shape;
use rdm_fixture_keys::Refusal;
use rdm_fixture_keys::keys::integer_or;
use toml::Table;

/// The least value: where nothing is said of it, the least that the data can say.
pub(super) fn least(table: &Table, shape: Shape) -> Result<i64, Refusal>
    ensures value { result_ok result ≡ says.low_in shape (table_view table.now) }
    ensures wrong { IfErr result (λ e. (least_part shape).Wrong (table_view table.now) (told e)) }
{
    let least = least_of(shape);
    integer_or(
        table,
        "minimum_valid_value",
        least,
        least,
        greatest_of(shape),
    )
}

/// The greatest value, which isn't below the least: where nothing is said of it, the greatest that the data can say.
pub(super) fn greatest(table: &Table, shape: Shape, low: i64) -> Result<i64, Refusal>
    ensures value { result_ok result ≡ says.high_in shape low (table_view table.now) }
    ensures wrong { IfErr result (λ e. (greatest_part shape low).Wrong (table_view table.now) (told e)) }
{
    let greatest = greatest_of(shape);
    integer_or(table, "maximum_valid_value", greatest, low, greatest)
}

/// The least number that data can say, and 0 where they say none.
pub(crate) fn least_of(shape: Shape) -> i64
    ensures { result ≡ says.least_of shape }
{
    match shape {
        Shape::SignedByte => -128,
        Shape::SignedWord => -32768,
        Shape::SignedLong => -2_147_483_648,
        Shape::Byte | Shape::Word | Shape::Long | Shape::Choice => 0,
        Shape::Scenes | Shape::Lock | Shape::Pin => 0,
        Shape::Text | Shape::Bits(_) | Shape::Slots(_) => 0,
        Shape::Names | Shape::Rates | Shape::Block => 0,
    }
}

/// The greatest number that data can say, or of the scenes that they tell of, and 0 where they say none.
pub(crate) fn greatest_of(shape: Shape) -> i64
    ensures { result ≡ says.greatest_of shape }
{
    match shape {
        Shape::Byte | Shape::Choice | Shape::Scenes | Shape::Lock => 255,
        Shape::SignedByte => 127,
        Shape::Pin => 9999,
        Shape::Word => 65535,
        Shape::SignedWord => 32767,
        Shape::Long => 4_294_967_295,
        Shape::SignedLong => 2_147_483_647,
        Shape::Text | Shape::Bits(_) | Shape::Slots(_) => 0,
        Shape::Names | Shape::Rates | Shape::Block => 0,
    }
}
