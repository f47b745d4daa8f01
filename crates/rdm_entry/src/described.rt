//! The fields of a parameter that a fixture describes (E1.20 section 10.4.2).

ghost use Rattle.std.specs.Prelude.{◌≡◌, IfOk};
ghost use Rattle.std.specs.Option.{option_map};
ghost use Rattle.rdm_entry.specs.Described.{number_of_type, described};

use crate::Field;
use crate::field::{BYTE, LONG, WORD};
use rdm_device::Width;
use std::alloc::{AllocError, Global};

/// The data type of a text (table A-15).
const ASCII: u8 = 0x02;

/// The fields of the data that a SET hands in, by the parameter data of a reply of PARAMETER_DESCRIPTION; or `None` if it doesn't say
/// which they are.
pub fn fields_described(alloc: Global, description: &[u8]) -> Result<Option<Vec<Field>>, AllocError>
    ensures { IfOk result (λ fields. option_map (λ list. list.items) fields ≡ described description.now) }
{
    let [_, _, size, kind, ..] = description else {
        return Ok(None);
    };
    if *kind == ASCII {
        return Ok(Some(vec![in alloc; Field::Text(*size)]?));
    }
    let Some((field, width)) = number_of_type(*kind) else {
        return Ok(None);
    };
    let slots = width.slots();
    let size = usize::from(*size);
    if size % slots != 0 {
        return Ok(None);
    }
    Ok(Some(vec![in alloc; field; size / slots]?))
}

/// The number of a data type, and how many slots it has.
fn number_of_type(kind: u8) -> Option<(Field, Width)>
    ensures { result ≡ number_of_type kind }
{
    match kind {
        0x03 => Some((BYTE, Width::One)),
        0x04 => Some((Field::Signed(Width::One), Width::One)),
        0x05 => Some((WORD, Width::Two)),
        0x06 => Some((Field::Signed(Width::Two), Width::Two)),
        0x07 => Some((LONG, Width::Four)),
        0x08 => Some((Field::Signed(Width::Four), Width::Four)),
        _ => None,
    }
}
