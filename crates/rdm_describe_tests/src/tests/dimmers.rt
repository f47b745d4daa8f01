//! Dimmers that answer by a list: their levels, curves, lock states and scenes (E1.37-1).

use super::{Row, UID, answers, has};
use rdm_describe::{Note, Question, Round, describe, put_description, questions};
use rdm_fixture::Fixture;
use std::str;
use std::test::Fail;

/// A dimmer with all parameters of E1.20 and E1.37-1 that a file can add.
const DIMMER: [Row; 29] = [
    (
        0,
        0x0050,
        0,
        "002000150070014001410142034003410342034303440345034603470348044006030640064106421001103010401041104210431044",
        None,
    ),
    (0, 0x0060, 0, "01000060050000000300000101010001000000", None),
    (0, 0x00C0, 0, "312E30", None),
    (0, 0x0015, 0, "000000010002", None),
    (0, 0x0070, 0, "0400", None),
    (0, 0x0141, 0, "00010014FFFF80", None),
    (0, 0x0142, 0, "0000FFFF00147F", None),
    (0, 0x0340, 0, "000100FF8000FF00020C01", None),
    (0, 0x0341, 0, "0002000300", None),
    (0, 0x0342, 0, "9000", None),
    (0, 0x0343, 0, "0202", None),
    (0, 0x0344, 1, "014C696E656172", None),
    (0, 0x0344, 2, "02537175617265206C6177", None),
    (0, 0x0345, 0, "0101", None),
    (0, 0x0346, 1, "0146617374", None),
    (0, 0x0347, 0, "0101", None),
    (0, 0x0348, 1, "01000003E831206B487A", None),
    (0, 0x0440, 0, "05", None),
    (0, 0x0603, 0, "07EA0B1D0D1E3C", None),
    (0, 0x0640, 0, "01B7", None),
    (0, 0x0641, 0, "0101", None),
    (0, 0x0642, 1, "01416C6C", None),
    (0, 0x1040, 0, "FF", None),
    (
        0,
        0x1041,
        0,
        "010000000100000300010064000200C80003012C00040190000501F400060258",
        None,
    ),
    (0, 0x1042, 1, "000100000000000002", None),
    (0, 0x1042, 2, "000200000000000000", None),
    (0, 0x1042, 3, "0003000A0014001E01", None),
    (0, 0x1043, 0, "FF", None),
    (0, 0x1044, 0, "01", None),
];

/// The parameters that this is in a file. The least and greatest times, levels and scenes are those of PRESET_INFO and DIMMER_INFO; a delay
/// of DMX_FAIL_MODE and a hold time of DMX_STARTUP_MODE can't be without end, as PRESET_INFO says.
const WANTED: &str = r#"
uid = "7FF0:00000040"
manufacturer_label = ""
device_model_id = 0x0060
product_category = 0x0500
software_version_id = 0x00000300
presets = 3
more_slots = 1

[[personality]]
dmx_footprint = 1

[[parameter]]
pid = 0x0015
description = "COMMS_STATUS"
command_class = "get_clear"
data_type = "not_defined"
fields = [{ slots = 2 }, { slots = 2 }, { slots = 2 }]
default_value = "000000010002"

[[parameter]]
pid = 0x0070
description = "PRODUCT_DETAIL_ID_LIST"
command_class = "get"
data_type = "not_defined"
default_value = "0400"

[[parameter]]
pid = 0x0140
description = "DMX_BLOCK_ADDRESS"
command_class = "get_set"
data_type = "block"
default_value = ""

[[parameter]]
pid = 0x0141
description = "DMX_FAIL_MODE"
command_class = "get_set"
data_type = "not_defined"
fields = [
    { slots = 2, maximum_valid_value = 3 },
    { slots = 2, minimum_valid_value = 3, maximum_valid_value = 300 },
    { slots = 2, minimum_valid_value = 4, maximum_valid_value = 400, also_valid_value = 0xFFFF },
    { slots = 1 },
]
default_value = "00010014FFFF80"

[[parameter]]
pid = 0x0142
description = "DMX_STARTUP_MODE"
command_class = "get_set"
data_type = "not_defined"
fields = [
    { slots = 2, maximum_valid_value = 3 },
    { slots = 2, minimum_valid_value = 5, maximum_valid_value = 500, also_valid_value = 0xFFFF },
    { slots = 2, minimum_valid_value = 6, maximum_valid_value = 600 },
    { slots = 1 },
]
default_value = "0000FFFF00147F"

[[parameter]]
pid = 0x0340
description = "DIMMER_INFO"
command_class = "get"
data_type = "not_defined"
default_value = "000100FF8000FF00020C01"

[[parameter]]
pid = 0x0341
description = "MINIMUM_LEVEL"
command_class = "get_set"
data_type = "not_defined"
fields = [
    { slots = 2, minimum_valid_value = 1, maximum_valid_value = 0x00FF },
    { slots = 2, minimum_valid_value = 1, maximum_valid_value = 0x00FF },
    { slots = 1, maximum_valid_value = 1 },
]
default_value = "0002000300"

[[parameter]]
pid = 0x0342
description = "MAXIMUM_LEVEL"
command_class = "get_set"
data_type = "unsigned_word"
minimum_valid_value = 0x8000
maximum_valid_value = 0xFF00
default_value = 0x9000

[[parameter]]
pid = 0x0343
description = "CURVE"
command_class = "get_set"
data_type = "choice"
minimum_valid_value = 1
maximum_valid_value = 2
default_value = 2

[[parameter]]
pid = 0x0344
description = "CURVE_DESCRIPTION"
command_class = "get"
data_type = "names"
default_value = ""

[[parameter]]
pid = 0x0345
description = "OUTPUT_RESPONSE_TIME"
command_class = "get_set"
data_type = "choice"
minimum_valid_value = 1
maximum_valid_value = 1
default_value = 1

[[parameter]]
pid = 0x0346
description = "OUTPUT_RESPONSE_TIME_DESCRIPTION"
command_class = "get"
data_type = "names"
default_value = ""

[[parameter]]
pid = 0x0347
description = "MODULATION_FREQUENCY"
command_class = "get_set"
data_type = "choice"
minimum_valid_value = 1
maximum_valid_value = 1
default_value = 1

[[parameter]]
pid = 0x0348
description = "MODULATION_FREQUENCY_DESCRIPTION"
command_class = "get"
data_type = "rates"
default_value = ""

[[parameter]]
pid = 0x0440
description = "BURN_IN"
command_class = "get_set"
data_type = "unsigned_byte"
default_value = 5

[[parameter]]
pid = 0x0603
description = "REAL_TIME_CLOCK"
command_class = "get_set"
data_type = "not_defined"
fields = [
    { slots = 2, minimum_valid_value = 2003 },
    { slots = 1, minimum_valid_value = 1, maximum_valid_value = 12 },
    { slots = 1, minimum_valid_value = 1, maximum_valid_value = 31 },
    { slots = 1, maximum_valid_value = 23 },
    { slots = 1, maximum_valid_value = 59 },
    { slots = 1, maximum_valid_value = 60 },
]
default_value = "07EA0B1D0D1E3C"
factory_defaults = false

[[parameter]]
pid = 0x0640
description = "LOCK_PIN"
command_class = "get_set"
data_type = "pin"
maximum_valid_value = 9999
default_value = 439

[[parameter]]
pid = 0x0641
description = "LOCK_STATE"
command_class = "get_set"
data_type = "lock"
maximum_valid_value = 1
default_value = 1

[[parameter]]
pid = 0x0642
description = "LOCK_STATE_DESCRIPTION"
command_class = "get"
data_type = "names"
default_value = ""

[[parameter]]
pid = 0x1001
description = "RESET_DEVICE"
command_class = "set"
data_type = "not_defined"
fields = [{ slots = 1, minimum_valid_value = 1, maximum_valid_value = 1, also_valid_value = 0xFF }]
default_value = "01"

[[parameter]]
pid = 0x1030
description = "CAPTURE_PRESET"
command_class = "set"
data_type = "not_defined"
fields = [
    { slots = 2, minimum_valid_value = 1, maximum_valid_value = 3 },
    { slots = 2, minimum_valid_value = 1, maximum_valid_value = 100 },
    { slots = 2, minimum_valid_value = 1, maximum_valid_value = 100 },
    { slots = 2, minimum_valid_value = 2, maximum_valid_value = 200 },
]
default_value = "0001000100010002"

[[parameter]]
pid = 0x1040
description = "IDENTIFY_MODE"
command_class = "get_set"
data_type = "not_defined"
fields = [{ slots = 1, maximum_valid_value = 0, also_valid_value = 0xFF }]
default_value = "FF"

[[parameter]]
pid = 0x1041
description = "PRESET_INFO"
command_class = "get"
data_type = "not_defined"
default_value = "010000000100000300010064000200C80003012C00040190000501F400060258"

[[parameter]]
pid = 0x1042
description = "PRESET_STATUS"
command_class = "get_set"
data_type = "scenes"
minimum_valid_value = 1
maximum_valid_value = 3
default_value = ""

[[parameter]]
pid = 0x1043
description = "PRESET_MERGEMODE"
command_class = "get_set"
data_type = "not_defined"
fields = [{ slots = 1, maximum_valid_value = 3, also_valid_value = 0xFF }]
default_value = "FF"

[[parameter]]
pid = 0x1044
description = "POWER_ON_SELF_TEST"
command_class = "get_set"
data_type = "unsigned_byte"
maximum_valid_value = 1
default_value = 1

[[choice]]
pid = 0x0344
number = 1
description = "Linear"

[[choice]]
pid = 0x0344
number = 2
description = "Square law"

[[choice]]
pid = 0x0346
number = 1
description = "Fast"

[[choice]]
pid = 0x0348
number = 1
hertz = 1000
description = "1 kHz"

[[choice]]
pid = 0x0642
number = 1
description = "All"
"#;

/// All that a dimmer tells is in the file, and a scene that has times has a note.
#[test]
fn dimmer_is_described(rt: HostRuntime) -> Result<(), Fail> {
    let alloc = rt.alloc();
    let wanted = Fixture::from_toml(alloc, WANTED)?;
    let answers = answers(alloc, &DIMMER)?;
    let told = describe(alloc, UID, answers.as_slice())?;
    let (particulars, wanted_particulars) = (
        &told.fixture.profile.particulars,
        &wanted.profile.particulars,
    );
    for (def, wanted) in particulars.own().iter().zip(wanted_particulars.own()) {
        assert!(rt; def == wanted, "parameter {wanted:?}");
    }
    assert_eq!(rt; particulars.own().len(), 26);
    assert!(rt; particulars.choices() == wanted_particulars.choices());
    assert_eq!(rt; told.fixture.profile.presets, wanted.profile.presets);
    assert!(rt; told.notes.as_slice() == [Note::OtherScene(3)].as_slice());
    let text = put_description(alloc, answers.as_slice(), &told)?;
    let text = str::from_utf8(text.as_slice())?;
    assert!(rt;
        has(
            text,
            "# PRESET_STATUS: scene 3 starts without what it told: 0003000A0014001E01\n"
        )
    );
    Ok(())
}

/// It is asked for each curve, frequency, lock state and scene that it has, and for no more.
#[test]
fn asks_about_each_thing(rt: HostRuntime) -> Result<(), Fail> {
    let alloc = rt.alloc();
    let answers = answers(alloc, &DIMMER)?;
    let asks = |pid: u16, about: u16| Question { sub: 0, pid, about };
    let second = questions(alloc, Round::Second, answers.as_slice())?;
    assert!(rt; second.contains(&asks(0x0343, 0)));
    assert!(rt; second.contains(&asks(0x1041, 0)));
    assert!(rt; !second.contains(&asks(0x1001, 0)));
    let third = questions(alloc, Round::Third, answers.as_slice())?;
    for (pid, last) in [
        (0x0344, 2),
        (0x0346, 1),
        (0x0348, 1),
        (0x0642, 1),
        (0x1042, 3),
    ] {
        assert!(rt; third.contains(&asks(pid, last)), "{pid} {last}");
        assert!(rt;
            !third.contains(&asks(pid, last + 1)),
            "{pid} {last} and more"
        );
    }
    assert_eq!(rt; third.len(), 8);
    assert_eq!(rt; asks(0x0344, 2).load().as_slice(), [2].as_slice());
    assert_eq!(rt; asks(0x1042, 3).load().as_slice(), [0, 3].as_slice());
    Ok(())
}
