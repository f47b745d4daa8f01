//! A dimmer whose answers contradict one another, or that no file can say (E1.37-1).

use super::{Row, file, has};
use std::test::Fail;

/// A dimmer with more curves than a file has names, whose PIN can't be read, whose frequencies aren't described, and whose scenes aren't
/// counted.
const LOCKED: [Row; 9] = [
    (
        0,
        0x0050,
        0,
        "00200340034303440347064006410642103001411042",
        None,
    ),
    (0, 0x0060, 0, "01000060050000000300000101010001000000", None),
    (0, 0x00C0, 0, "312E30", None),
    (0, 0x0141, 0, "FFFF0014FFFF80", None),
    (0, 0x0340, 0, "000100FF8000FF00460C01", None),
    (0, 0x0343, 0, "4046", None),
    (0, 0x0344, 64, "404C617374", None),
    (0, 0x0347, 0, "0101", None),
    (0, 0x0641, 0, "0001", None),
];

/// What a dimmer tells that no file can say has a note, and the file is one all the same.
#[test]
fn contradictions_have_notes(rt: HostRuntime) -> Result<(), Fail> {
    let text = file(rt.alloc(), &LOCKED)?;
    for words in [
        "# CURVE: the fixture has 70, of which the first are here: 64\n",
        "# CURVE_DESCRIPTION 63 wasn't answered\n",
        "# DIMMER_INFO is a parameter of the fixture that isn't here. It told 000100FF8000FF00460C01, and PARAMETER_DESCRIPTION nothing\n",
        "# MODULATION_FREQUENCY is a parameter of the fixture that isn't here. It told 0101, and PARAMETER_DESCRIPTION nothing\n",
        "# LOCK_PIN wasn't answered\n",
        "# PRESET_STATUS is a parameter of the fixture that isn't here. It told nothing, and PARAMETER_DESCRIPTION nothing\n",
        "description = \"Last\"",
        "description = \"LOCK_PIN\"",
        "description = \"LOCK_STATE\"",
        "default_value = \"FFFF0014FFFF80\"",
        "presets = 0",
    ] {
        assert!(rt; has(text.as_str(), words), "{words}");
    }
    assert!(rt; !has(text.as_str(), "CURVE_DESCRIPTION 64 wasn't answered"));
    Ok(())
}
