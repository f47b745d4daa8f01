//! Personalities that have slots of their own, or those of another one.

use super::{LEAST, Part, Table, told_is, try_tables};
use std::alloc::{AllocError, Global};

const TABLES: &[Table] = &[
    Table {
        part: Part::Modes,
        tables: "",
        rows: MODES,
    },
    Table {
        part: Part::Fault,
        tables: "",
        rows: REFUSED,
    },
];

#[test]
fn rows(rt: HostRuntime) {
    try_tables(&rt, rt.alloc(), TABLES);
}

/// They have slots of their own, which may be none, those of a `[[personality]]`, or those of one that stands before or behind them.
const MODES: &str = r#"..

.. [[mode]]¶dmx_footprint = 0¶
0 slots, those of 0, ""

.. [[mode]]¶dmx_footprint = 2¶description = "Own"¶[[mode.slot]]¶label_id = "intensity"¶description = "Dimmer"¶[[mode.slot]]¶type = "fine"¶label_id = 0¶default_value = 128¶[[mode]]¶dmx_footprint = 0¶slots_of = 1¶[[mode]]¶dmx_footprint = 512¶description = "Long"¶slots_of = 2¶
2 slots, those of 0, "Own"
slot 00 0001 0, "Dimmer"
slot 01 0000 128, ""
0 slots, those of 1, ""
512 slots, those of 2, "Long"

mode = [{ dmx_footprint = 1, slots_of = 3 }, { dmx_footprint = 1, slot = [{ label_id = 1, description = "Iris" }] }]¶..
1 slots, those of 3, ""
1 slots, those of 0, ""
slot 00 0001 0, "Iris""#;

/// A mode's keys, those of its slots, and a personality whose slots it can't have: one that isn't there, itself, or one that has none of
/// its own; nor does it have slots beside another's.
const REFUSED: &str = r#"mode = 1¶..
line 1: `mode` must be a list of 0 to 247 entries

.. [[mode]]¶description = "None"
line 5: in mode 1, missing key `dmx_footprint`

.. [[mode]]¶dmx_footprint = 513
line 6: in mode 1, `dmx_footprint` must be an integer from 0 to 512

.. [[mode]]¶dmx_footprint = 0¶[[mode]]¶dmx_footprint = 0¶slots_of = 256
line 9: in mode 2, `slots_of` must be an integer from 0 to 255

.. [[mode]]¶dmx_footprint = 0¶label_id = 1
line 7: in mode 1, unknown key `label_id`

.. [[mode]]¶dmx_footprint = 1¶[[mode.slot]]¶label_id = 1¶dmx_slot = 1
line 5: in mode 1, unknown key `dmx_slot`

.. [[mode]]¶dmx_footprint = 1¶[[mode.slot]]¶type = 0
line 5: in mode 1, missing key `label_id`

mode = [{ dmx_footprint = 0, slots_of = 3 }]¶..
line 1: `mode` must be a list of personalities that each have slots of their own, or name in `slots_of` a personality that has

mode = [{ dmx_footprint = 0, slots_of = 2 }]¶..
line 1: `mode` must be a list of personalities that each have slots of their own, or name in `slots_of` a personality that has

mode = [{ dmx_footprint = 0, slots_of = 3 }, { dmx_footprint = 0, slots_of = 1 }]¶..
line 1: `mode` must be a list of personalities that each have slots of their own, or name in `slots_of` a personality that has

mode = [{ dmx_footprint = 1, slots_of = 1, slot = [{ label_id = 1 }] }]¶..
line 1: `mode` must be a list of personalities that each have slots of their own, or name in `slots_of` a personality that has"#;

/// A mode with so many slots, at the end of the least.
fn with_slots(alloc: Global, count: usize) -> Result<String, AllocError> {
    let mut text = format!(in alloc; "{LEAST}[[mode]]\ndmx_footprint = 0\n")?;
    for _ in 0..count {
        text.push_str("[[mode.slot]]\nlabel_id = 1\n")?;
    }
    Ok(text)
}

/// SLOT_INFO can list 46 slots.
#[test]
fn how_many_slots_are_too_many(rt: HostRuntime) {
    let text = with_slots(rt.alloc(), 46).expect(&rt, "memory");
    told_is(&rt, rt.alloc(), Part::Fault, &text, "a fixture");
    let text = with_slots(rt.alloc(), 47).expect(&rt, "memory");
    let expected = "line 99: in mode 1, `slot` must be a list of 0 to 46 entries";
    told_is(&rt, rt.alloc(), Part::Fault, &text, expected);
}
