//! Parameters that the table doesn't have, as far as it is known how their data are said.

use rdm_device::{Field, ParameterDef, Shape};

/// A parameter that a fixture adds: what it is called, and what its data are.
#[derive(Clone, Copy)]
pub(crate) struct Added<'a> {
    pub(crate) pid: u16,
    pub(crate) name: &'a [u8],
    pub(crate) shape: Shape,
    pub(crate) fields: &'a [Field],
    pub(crate) prefix: u8,
    pub(crate) unit: u8,
}

impl<'a> Added<'a> {
    /// The one that a profile defines so.
    pub(crate) fn of(def: &'a ParameterDef) -> Added<'a> {
        Added {
            pid: def.pid,
            name: def.name.as_slice(),
            shape: def.shape,
            fields: def.fields.as_slice(),
            prefix: def.prefix,
            unit: def.unit,
        }
    }
}

/// The parameter that the data of PARAMETER_DESCRIPTION describe, if it is this one (E1.20 section 10.4.2).
pub(crate) fn described_in(pid: u16, data: &[u8]) -> Option<Added<'_>> {
    let [a, b, slots, kind, _, _, unit, prefix, numbers @ ..] = data else {
        return None;
    };
    if u16::from_be_bytes([*a, *b]) != pid || numbers.len() < 12 {
        return None;
    }
    Some(Added {
        pid,
        name: &numbers[12..],
        shape: shape_of(*kind, *slots),
        fields: &[],
        prefix: *prefix,
        unit: *unit,
    })
}

/// What data of this type and of so many slots are (table A-15).
fn shape_of(kind: u8, slots: u8) -> Shape {
    match (kind, slots) {
        (0x01, _) => Shape::Bits(slots),
        (0x02, _) => Shape::Text,
        (0x03, 1) => Shape::Byte,
        (0x04, 1) => Shape::SignedByte,
        (0x05, 2) => Shape::Word,
        (0x06, 2) => Shape::SignedWord,
        (0x07, 4) => Shape::Long,
        (0x08, 4) => Shape::SignedLong,
        _ => Shape::Slots(slots),
    }
}

/// The data of the parameters of E1.37-1 which tell of things of which one is chosen: they are so whatever the fixture.
pub(crate) fn common_shape(pid: u16) -> Option<Shape> {
    match pid {
        // CURVE, OUTPUT_RESPONSE_TIME and MODULATION_FREQUENCY
        0x0343 | 0x0345 | 0x0347 => Some(Shape::Choice),
        // the descriptions of these, and LOCK_STATE_DESCRIPTION
        0x0344 | 0x0346 | 0x0642 => Some(Shape::Names),
        0x0348 => Some(Shape::Rates),
        _ => None,
    }
}
