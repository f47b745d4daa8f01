//! From a value to the bytes that stand for it.

ghost use Rattle.std.specs.Prelude.{◌≡◌, [], IsTrue, IsFalse};
ghost use Rattle.rdm_profile.specs.Values.{bytes_of};
ghost use Rattle.rdm_profile.specs.Views.Plain.{is_plain};

use crate::Value;
use rdm_frame::Body;

// The forms of values with their fields, in two groups, each handed to the macro of one use.
macro_rules! forms {
    (plain, $use:ident! $args:tt) => {
        $use! { $args
            (Nothing)
            (Byte (a byte))
            (Word (a number))
            (Long (a number))
            (Pair (a byte, b byte))
            (Label (a text))
            (Block (a text))
        }
    };
    (fields, $use:ident! $args:tt) => {
        $use! { $args
            (Preset { mode number, level byte })
            (Named { number byte, name text })
            (SlotName { offset number, name text })
            (Mode { number byte, footprint number, name text })
            (Reading { number byte, present number, lowest number, highest number, recorded number })
            (Sensor { number byte, def sensor })
            (Info { protocol number, model number, category number, software number, footprint number, personality byte, personalities byte, start number, subs number, sensors byte })
        }
    };
}

macro_rules! names {
    (() $(($name:ident $($fields:tt)?))*) => { $(Value::$name { .. })|* };
}

macro_rules! write_rows {
    (($value:ident $body:ident) $(($name:ident $(($($part:ident $form:ident),*))? $({$($field:ident $shape:ident),*})?))*) => {{
        match $value {
            $(Value::$name $(($($part),*))? $({$($field),*})? => {
                $($(write_field!($body $part $form);)*)?
                $($(write_field!($body $field $shape);)*)?
            })*
            _ => unreachable!(),
        }
    }};
}

macro_rules! write_field {
    ($body:ident $field:ident byte) => { $body.append(&[*$field]) };
    ($body:ident $field:ident number) => { $body.append(&$field.to_be_bytes()) };
    ($body:ident $field:ident text) => { $body.append($field.as_slice()) };
    ($body:ident $field:ident sensor) => {
        $body.append(&[$field.kind, $field.unit, $field.prefix]);
        $body.append(&$field.low.to_be_bytes());
        $body.append(&$field.high.to_be_bytes());
        $body.append(&$field.normal_low.to_be_bytes());
        $body.append(&$field.normal_high.to_be_bytes());
        $body.append(&[$field.support]);
        $body.append($field.name.as_slice())
    };
}

/// The bytes that stand for a value: its fields in their order, numbers most significant byte first.
pub fn write_value(value: &Value) -> Body
    ensures { result ≡ bytes_of value.now }
{
    let mut body = Body::new();
    write_into(value, &mut body);
    body
}

/// Writes the bytes that stand for a value into an empty list.
pub fn write_into(value: &Value, body: &mut Body)
    requires { body.old ≡ [] }
    ensures { body.new ≡ bytes_of value.now }
{
    match value {
        forms!(plain, names!()) => write_plain(value, body),
        forms!(fields, names!()) => write_fields(value, body),
    }
}

fn write_plain(value: &Value, body: &mut Body)
    requires empty { body.old ≡ [] }
    requires plain { IsTrue (is_plain value.now) }
    ensures { body.new ≡ bytes_of value.now }
{
    forms!(plain, write_rows!(value body))
}

fn write_fields(value: &Value, body: &mut Body)
    requires empty { body.old ≡ [] }
    requires fields { IsFalse (is_plain value.now) }
    ensures { body.new ≡ bytes_of value.now }
{
    forms!(fields, write_rows!(value body))
}
