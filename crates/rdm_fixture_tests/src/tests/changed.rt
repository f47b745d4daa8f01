//! What is written of a fixture that was changed by hand, and what isn't.

use super::{LEAST, is_read_again};
use rdm_device::{Lock, MuteReply, ParameterDef, Particular, Particulars, Rights, Shape};
use rdm_fixture::Fixture;
use rdm_frame::{Text, Uid};
use rdm_outcomes::{Rule, demo_rules};
use rdm_params::{Outcome, Severity};
use std::alloc::{AllocError, Global};
use std::process::Abort;

/// What is written of the least fixture with a label: every number and the languages, but no empty text and no empty list. The keys
/// of a table are in the order of their bytes, before the tables in it. A TOML text in single quotation marks has no escapes.
const WRITTEN: &str = r#"boot_software_version_id = 0
device_hours = 0
device_label = 'a "label" \'
device_model_id = 1
device_power_cycles = 0
dmx_start_address = 1
lamp_hours = 0
lamp_strikes = 0
languages = ["en"]
more_slots = 0
presets = 0
product_category = "not declared"
software_version_id = 0
uid = "7FF0:00000001"

[[personality]]
dmx_footprint = 0
"#;

/// The same without the label, if it tells all that can be told when it is muted, and only its newest message of a change waits.
const MUTED: &str = r#"binding_uid = "7FF0:00000002"
boot_loader = true
boot_software_version_id = 0
device_hours = 0
device_model_id = 1
device_power_cycles = 0
dmx_start_address = 1
lamp_hours = 0
lamp_strikes = 0
languages = ["en"]
more_slots = 0
newest_only = true
presets = 0
product_category = "not declared"
proxied_device = true
software_version_id = 0
uid = "7FF0:00000001"

[[personality]]
dmx_footprint = 0
"#;

/// The same with its sub-devices, if they have no label. They are written if there are some or they would start otherwise than the root.
const WITH_SUB_DEVICES: &str = r#"boot_software_version_id = 0
device_hours = 0
device_label = 'a "label" \'
device_model_id = 1
device_power_cycles = 0
dmx_start_address = 1
lamp_hours = 0
lamp_strikes = 0
languages = ["en"]
more_slots = 0
presets = 0
product_category = "not declared"
software_version_id = 0
uid = "7FF0:00000001"

[[personality]]
dmx_footprint = 0

[sub_devices]
count = 0
device_model_id = 1
dmx_start_address = 1
product_category = "not declared"
software_version_id = 0

[[sub_devices.personality]]
dmx_footprint = 0
"#;

/// What is changed.
#[derive(Clone, Copy)]
enum Change {
    /// The label of the root.
    Label,
    /// The label of the root and of sub-devices.
    Labels,
    /// A label of two lines.
    TwoLines,
    /// The UID is a broadcast.
    Broadcast,
    /// A sensor of which isn't said what it has measured.
    Unmeasured,
    /// A lock of a state that LOCK_STATE hasn't.
    Locked,
    /// A text that has a greatest value.
    Limited,
    /// A text that can't be printed.
    Unprintable,
    /// More slots than there can be.
    Slots,
    /// A binding UID, and all else that is told of a fixture that is muted.
    Bound(Uid),
    /// How jobs end.
    Ends(Rule),
}

fn make(alloc: Global, fixture: &mut Fixture, changed: Change) -> Result<(), AllocError> {
    match changed {
        Change::Label => fixture.profile.root.label = Text::of(b"a \"label\" \\"),
        Change::Labels => {
            fixture.profile.root.label = Text::of(b"a \"label\" \\");
            fixture.profile.sub.label = Text::of(b"a \"label\" \\");
        }
        Change::TwoLines => fixture.profile.root.label = Text::of(b"two\nlines"),
        Change::Broadcast => fixture.uid = Uid::ALL,
        Change::Unmeasured => fixture.start.presents.clear(),
        Change::Locked => return set_lock(alloc, fixture),
        Change::Limited => return add(alloc, fixture, limited()),
        Change::Unprintable => return add(alloc, fixture, unprintable()),
        Change::Slots => return set_slots(alloc, fixture),
        Change::Bound(uid) => return bind(alloc, fixture, uid),
        Change::Ends(rule) => {
            fixture.outcomes.clear();
            fixture.outcomes.push(rule);
        }
    }
    Ok(())
}

/// LOCK_STATE isn't there.
fn set_lock(alloc: Global, fixture: &mut Fixture) -> Result<(), AllocError> {
    let mut particular = Particular::usual();
    particular.locks.push(alloc, Lock { state: 1, pid: 1 })?;
    fixture.profile.particulars = Particulars::of(alloc, particular)?;
    Ok(())
}

fn set_slots(alloc: Global, fixture: &mut Fixture) -> Result<(), AllocError> {
    let mut particular = Particular::usual();
    particular.more_slots = 513;
    fixture.profile.particulars = Particulars::of(alloc, particular)?;
    Ok(())
}

fn bind(alloc: Global, fixture: &mut Fixture, uid: Uid) -> Result<(), AllocError> {
    let mut particular = Particular::usual();
    particular.mute_reply = MuteReply {
        proxied_device: true,
        boot_loader: true,
        binding: Some(uid),
    };
    particular.newest_only = true;
    fixture.profile.particulars = Particulars::of(alloc, particular)?;
    Ok(())
}

/// The fixture has this parameter alone.
fn add(alloc: Global, fixture: &mut Fixture, def: ParameterDef) -> Result<(), AllocError> {
    let mut particular = Particular::usual();
    particular.own.push(alloc, def)?;
    fixture.profile.particulars = Particulars::of(alloc, particular)?;
    Ok(())
}

fn limited() -> ParameterDef {
    ParameterDef {
        pid: 0x8001,
        rights: Rights::Both,
        shape: Shape::Text,
        high: 1,
        ..ParameterDef::default()
    }
}

fn unprintable() -> ParameterDef {
    ParameterDef {
        pid: 0x8001,
        shape: Shape::Text,
        start: Text::of(b"two\nlines"),
        ..ParameterDef::default()
    }
}

/// The fixture of a file, with a change, as it is written.
fn written_with(alloc: Global, file: &str, changed: Change) -> Result<String, AllocError> {
    match Fixture::from_toml(alloc, file) {
        Ok(mut fixture) => {
            make(alloc, &mut fixture, changed)?;
            written(alloc, &fixture)
        }
        Err(error) => format!(in alloc; "{error}"),
    }
}

/// What is written of a fixture.
fn written(alloc: Global, fixture: &Fixture) -> Result<String, AllocError> {
    match fixture.to_toml(alloc) {
        Ok(text) => Ok(text),
        Err(error) => format!(in alloc; "{error:?}"),
    }
}

/// A file with a sensor that has measured nothing.
const WITH_SENSOR: &str = r#"uid = "7FF0:00000001"
device_model_id = 1
[[personality]]
dmx_footprint = 0
[[sensor]]
type = 0
"#;

/// A failure that is over, for which a file has no words.
const OVER: Outcome = Outcome::Failed {
    severity: Severity::ErrorCleared,
    id: 1,
    v1: 0,
    v2: 0,
};

/// A rule for the parameter of `Rule::default()`.
fn rule(turn: Option<u16>, outcome: Outcome) -> Rule {
    Rule {
        turn,
        outcome,
        ..Rule::default()
    }
}

/// What is written of the least fixture with a change.
fn is_written(rt: &impl Abort, alloc: Global, changed: Change, expected: &str) {
    writes(rt, alloc, LEAST, changed, expected);
}

/// What is written of the fixture of a file with a change.
fn writes(rt: &impl Abort, alloc: Global, file: &str, changed: Change, expected: &str) {
    let text = written_with(alloc, file, changed).expect(rt, "memory");
    assert!(rt; text.as_str() == expected, "{text}, not {expected}");
}

/// What is told of what has no words in a file.
const NOT_WRITTEN: &str = "Indescribable";

#[test]
fn what_is_written(rt: HostRuntime) {
    is_written(&rt, rt.alloc(), Change::Label, WITH_SUB_DEVICES);
    is_written(&rt, rt.alloc(), Change::Labels, WRITTEN);
    let first_port = Uid {
        maker: 0x7FF0,
        device: 2,
    };
    is_written(&rt, rt.alloc(), Change::Bound(first_port), MUTED);
}

/// What no file can say isn't written.
#[test]
fn what_is_not_written(rt: HostRuntime) {
    for changed in [
        Change::TwoLines,
        Change::Broadcast,
        Change::Locked,
        Change::Limited,
        Change::Unprintable,
        Change::Slots,
        Change::Bound(Uid::ALL),
        // How jobs end: a failure that is over, an outcome of job 0, and one that the parameter can't have.
        Change::Ends(rule(None, OVER)),
        Change::Ends(rule(Some(0), Outcome::Done)),
        Change::Ends(rule(None, Outcome::Reading(0))),
    ] {
        is_written(&rt, rt.alloc(), changed, NOT_WRITTEN);
    }
    writes(
        &rt,
        rt.alloc(),
        WITH_SENSOR,
        Change::Unmeasured,
        NOT_WRITTEN,
    );
}

/// The rules of the demonstration are written, and read again.
#[test]
fn demo_rules_are_written(rt: HostRuntime) {
    let made = with_demo_rules(rt.alloc()).expect(&rt, "memory");
    assert!(rt; made);
}

/// Whether the fixture of the demonstration's rules is read as it is written.
fn with_demo_rules(alloc: Global) -> Result<bool, AllocError> {
    let described = format!(in alloc;
        "{LEAST}[[self_test]]\nnumber = 2\n[[status]]\nid = 0x8001\n[[status]]\nid = 0x8002\n"
    )?;
    match Fixture::from_toml(alloc, &described) {
        Ok(mut fixture) => {
            fixture.outcomes = demo_rules();
            Ok(is_read_again(alloc, &fixture))
        }
        Err(_) => Ok(false),
    }
}
