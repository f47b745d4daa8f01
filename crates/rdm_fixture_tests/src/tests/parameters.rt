//! The parameters that a fixture has beside those of the standard, and those of the standard that it lacks.

use super::{Part, Table, try_tables};

const TABLES: &[Table] = &[
    Table {
        part: Part::Parameters,
        tables: "",
        rows: STARTS,
    },
    Table {
        part: Part::Parameters,
        tables: "",
        rows: SET_BACK,
    },
    Table {
        part: Part::Fault,
        tables: "",
        rows: NOT_SET_BACK,
    },
    Table {
        part: Part::Fault,
        tables: "",
        rows: REFUSED,
    },
    Table {
        part: Part::Fault,
        tables: "",
        rows: LACKED,
    },
];

#[test]
fn rows(rt: HostRuntime) {
    try_tables(&rt, rt.alloc(), TABLES);
}

/// What the data of parameters are and start with, and the least and the greatest value: by default the whole range of the type.
const STARTS: &str =
    r#".. [[parameter]]¶pid = 0x8001¶command_class = "get_set"¶data_type = "unsigned_byte"¶default_value = 255
Both Byte [255], 0 to 255, set back: true

.. [[parameter]]¶pid = 0x8001¶command_class = "get_set"¶data_type = "signed_byte"¶default_value = -1
Both SignedByte [255], -128 to 127, set back: true

.. [[parameter]]¶pid = 0x8001¶command_class = "get_set"¶data_type = "signed_byte"¶default_value = -128
Both SignedByte [128], -128 to 127, set back: true

.. [[parameter]]¶pid = 0x8001¶command_class = "get_set"¶data_type = "unsigned_word"¶default_value = 6500¶minimum_valid_value = 2700¶maximum_valid_value = 8000
Both Word [25, 100], 2700 to 8000, set back: true

.. [[parameter]]¶pid = 0x8001¶command_class = "get_set"¶data_type = "signed_word"¶default_value = -2
Both SignedWord [255, 254], -32768 to 32767, set back: true

.. [[parameter]]¶pid = 0x8001¶command_class = "get_set"¶data_type = "signed_word"¶default_value = 32767
Both SignedWord [127, 255], -32768 to 32767, set back: true

.. [[parameter]]¶pid = 0x8001¶command_class = "get_set"¶data_type = "unsigned_dword"¶default_value = 4294967295
Both Long [255, 255, 255, 255], 0 to 4294967295, set back: true

.. [[parameter]]¶pid = 0x8001¶command_class = "get_set"¶data_type = "signed_dword"¶default_value = -2147483648
Both SignedLong [128, 0, 0, 0], -2147483648 to 2147483647, set back: true

.. [[parameter]]¶pid = 0x8001¶command_class = "get_set"¶data_type = "signed_dword"¶default_value = -3¶maximum_valid_value = -3
Both SignedLong [255, 255, 255, 253], -2147483648 to -3, set back: true

.. [[parameter]]¶pid = 0x8001¶command_class = "get_set"¶data_type = "ascii"¶default_value = "Show"
Both Text [83, 104, 111, 119], 0 to 0, set back: true

.. [[parameter]]¶pid = 0x8001¶command_class = "get_set"¶data_type = "ascii"¶default_value = ""
Both Text [], 0 to 0, set back: true

.. [[parameter]]¶pid = 0x8001¶command_class = "get_set"¶data_type = "bit_field"¶default_value = "0a80"
Both Bits(2) [10, 128], 0 to 0, set back: true

.. [[parameter]]¶pid = 0x8001¶command_class = "get_set"¶data_type = "not_defined"¶default_value = "000000000000"
Both Slots(6) [0, 0, 0, 0, 0, 0], 0 to 0, set back: true

.. [[parameter]]¶pid = 0x8001¶command_class = "get_set"¶data_type = "not_defined"¶default_value = ""
Both Slots(0) [], 0 to 0, set back: true"#;

/// Whether FACTORY_DEFAULTS sets a parameter back: it does so with a setting, unless the file says otherwise.
const SET_BACK: &str =
    r#".. [[parameter]]¶pid = 0x8001¶command_class = "get"¶data_type = "ascii"¶default_value = ""¶
Get Text [], 0 to 0, set back: false

.. [[parameter]]¶pid = 0x8001¶command_class = "set"¶data_type = "ascii"¶default_value = ""¶
Set Text [], 0 to 0, set back: false

.. [[parameter]]¶pid = 0x8001¶command_class = "get_set"¶data_type = "ascii"¶default_value = ""¶
Both Text [], 0 to 0, set back: true

.. [[parameter]]¶pid = 0x8001¶command_class = "get"¶data_type = "ascii"¶default_value = ""¶factory_defaults = true
Get Text [], 0 to 0, set back: true

.. [[parameter]]¶pid = 0x8001¶command_class = "get_set"¶data_type = "ascii"¶default_value = ""¶factory_defaults = false
Both Text [], 0 to 0, set back: false"#;

/// Parameters that keep no value that is told, and that FACTORY_DEFAULTS is to set back.
const NOT_SET_BACK: &str =
    r#".. [[parameter]]¶pid = 0x8001¶command_class = "set"¶data_type = "ascii"¶default_value = ""¶factory_defaults = true
line 10: in parameter 1, `factory_defaults` must be false: FACTORY_DEFAULTS has no value to reset this parameter to

.. [[parameter]]¶pid = 0x1042¶command_class = "get_set"¶data_type = "scenes"¶maximum_valid_value = 3¶default_value = ""¶factory_defaults = true
line 11: in parameter 1, `factory_defaults` must be false: FACTORY_DEFAULTS has no value to reset this parameter to

.. [[parameter]]¶pid = 0x0140¶command_class = "get_set"¶data_type = "block"¶default_value = ""¶factory_defaults = true
line 10: in parameter 1, `factory_defaults` must be false: FACTORY_DEFAULTS has no value to reset this parameter to"#;

/// Parameters that a fixture can't have.
const REFUSED: &str = r#"¶.. [[parameter]]
line 6: in parameter 1, missing key `pid`

¶.. [[parameter]]¶pid = 0x7FFF
line 7: in parameter 1, `pid` must be from 0x8000 to 0xFFDF, or the PID of a parameter of E1.20 or E1.37-1 that a fixture can add

¶.. [[parameter]]¶pid = 0xFFE0
line 7: in parameter 1, `pid` must be from 0x8000 to 0xFFDF, or the PID of a parameter of E1.20 or E1.37-1 that a fixture can add

¶.. [[parameter]]¶pid = 0x18001
line 7: in parameter 1, `pid` must be from 0x8000 to 0xFFDF, or the PID of a parameter of E1.20 or E1.37-1 that a fixture can add

¶.. [[parameter]]¶pid = 0x8000
line 6: in parameter 1, missing key `command_class`

¶.. [[parameter]]¶pid = 0x8000¶command_class = "GET"
line 8: in parameter 1, `command_class` must be get, set, get_set or get_clear

¶.. [[parameter]]¶pid = 0x8001¶command_class = "get_set"¶
line 6: in parameter 1, missing key `data_type`

¶.. [[parameter]]¶pid = 0x8001¶command_class = "get_set"¶data_type = "word"
line 9: in parameter 1, `data_type` must be unsigned_byte, signed_byte, unsigned_word, signed_word, unsigned_dword, signed_dword, ascii, bit_field, not_defined, choice, names, rates, scenes, lock, pin or block

¶.. [[parameter]]¶pid = 0x8001¶command_class = "get_set"¶data_type = "unsigned_byte"
line 6: in parameter 1, missing key `default_value`

¶.. [[parameter]]¶pid = 0x8001¶command_class = "get_set"¶data_type = "unsigned_byte"¶default_value = 256
line 10: in parameter 1, `default_value` must be an integer from 0 to 255

¶.. [[parameter]]¶pid = 0x8001¶command_class = "get_set"¶data_type = "unsigned_byte"¶default_value = "1"
line 10: in parameter 1, `default_value` must be an integer from 0 to 255

¶.. [[parameter]]¶pid = 0x8001¶command_class = "get_set"¶data_type = "unsigned_byte"¶minimum_valid_value = 3¶maximum_valid_value = 4¶default_value = 5
line 12: in parameter 1, `default_value` must be an integer from 3 to 4

¶.. [[parameter]]¶pid = 0x8001¶command_class = "get_set"¶data_type = "unsigned_byte"¶minimum_valid_value = 5¶maximum_valid_value = 3¶default_value = 4
line 11: in parameter 1, `maximum_valid_value` must be an integer from 5 to 255

¶.. [[parameter]]¶pid = 0x8001¶command_class = "get_set"¶data_type = "signed_byte"¶minimum_valid_value = -129¶default_value = 0
line 10: in parameter 1, `minimum_valid_value` must be an integer from -128 to 127

¶.. [[parameter]]¶pid = 0x8001¶command_class = "get_set"¶data_type = "ascii"¶maximum_valid_value = 1¶default_value = ""
line 10: in parameter 1, `maximum_valid_value` must be an integer from 0 to 0

¶.. [[parameter]]¶pid = 0x8001¶command_class = "get_set"¶data_type = "ascii"¶default_value = "two\nlines"
line 10: in parameter 1, `default_value` must be a string of at most 32 printable ASCII characters

¶.. [[parameter]]¶pid = 0x8001¶command_class = "get_set"¶data_type = "bit_field"¶default_value = "123"
line 10: in parameter 1, `default_value` must be a string of two hexadecimal digits for each slot, at most 32 slots

¶.. [[parameter]]¶pid = 0x8001¶command_class = "get_set"¶data_type = "not_defined"¶default_value = 1
line 10: in parameter 1, `default_value` must be a string of two hexadecimal digits for each slot, at most 32 slots

¶.. [[parameter]]¶pid = 0x8001¶command_class = "get_set"¶data_type = "ascii"¶default_value = ""¶factory_defaults = 1
line 11: in parameter 1, `factory_defaults` must be true or false

¶.. [[parameter]]¶pid = 0x8001¶command_class = "get_set"¶data_type = "ascii"¶default_value = ""¶unit = 256
line 11: in parameter 1, `unit` must be an integer from 0 to 255, or a name such as "V DC" (felosumay fixture --names units lists them)

¶.. [[parameter]]¶pid = 0x8001¶command_class = "get_set"¶name = "Fan"
line 9: in parameter 1, unknown key `name`

¶.. [[parameter]]¶pid = 0x8002¶command_class = "get"¶data_type = "ascii"¶default_value = ""¶[[parameter]]¶pid = 0x8002¶command_class = "get"¶data_type = "ascii"¶default_value = ""
line 12: in parameter 2, `pid` must be greater than in every earlier entry

¶.. [[parameter]]¶pid = 0x8002¶command_class = "get"¶data_type = "ascii"¶default_value = ""¶[[parameter]]¶pid = 0x8001¶command_class = "get"¶data_type = "ascii"¶default_value = ""
line 12: in parameter 2, `pid` must be greater than in every earlier entry

parameter = 1¶..
line 1: `parameter` must be a list of 0 to 32 entries"#;

/// Parameters that are left out, and slots that no slot describes.
const LACKED: &str = r#"without = []¶..
a fixture

without = ["LAMP_STATE", "LAMP_ON_MODE"]¶..
a fixture

without = "LAMP_STATE"¶..
line 1: `without` must be a list of 0 to 36 entries

without = ["lamp_state"]¶..
line 1: `without` must be a list of parameter names, such as ["LAMP_STATE"]

without = [0x0403]¶..
line 1: `without` must be a list of parameter names, such as ["LAMP_STATE"]

without = ["LAMP_STATE", "DEVICE_INFO"]¶..
line 1: `without` omits a parameter that every fixture must have

without = ["QUEUED_MESSAGE"]¶..
line 1: `without` omits a parameter that every fixture must have

without = ["SLOT_INFO"]¶..
line 1: `without` omits a parameter that a remaining one needs

without = ["DEFAULT_SLOT_VALUE", "SLOT_DESCRIPTION", "SLOT_INFO"]¶..
a fixture

more_slots = 512¶..
a fixture

more_slots = 513¶..
line 1: `more_slots` must be an integer from 0 to 512

more_slots = 3¶.. [[slot]]¶label_id = 1¶[[personality]]¶dmx_footprint = 4
a fixture

more_slots = 3¶.. [[slot]]¶label_id = 1¶[[personality]]¶dmx_footprint = 5
line 9: in personality 2, `dmx_footprint` must be an integer from 0 to 4, the number of [[slot]] tables plus `more_slots`"#;
