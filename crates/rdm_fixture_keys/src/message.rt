//! What a refusal says to people.

use crate::{Agreement, Refusal, Section, Wanted};
use rdm_standard_names::NameKind;
use std::fmt;

impl fmt::Display for Refusal {
    fn fmt<W: fmt::Write>(&self, f: &mut fmt::Formatter<W>) -> fmt::Result {
        if let Some(line) = self.line {
            write!(f, "line {line}: ")?;
        }
        f.write_str(place_of(self.section))?;
        if let Some(entry) = &self.entry {
            let list = entry.list.as_str();
            let number = entry.number;
            write!(f, "in {list} {number}, ")?;
        }
        write_wanted(f, self.key.as_str(), self.wanted)
    }
}

/// In which table it is.
fn place_of(section: Section) -> &'static str {
    match section {
        Section::Top => "",
        Section::SubDevices => "in [sub_devices], ",
        Section::Estimates => "in [estimates], ",
        Section::Workers => "in [workers], ",
    }
}

/// What was wanted of a key.
fn write_wanted<W: fmt::Write>(
    f: &mut fmt::Formatter<W>,
    key: &str,
    wanted: Wanted,
) -> fmt::Result {
    match wanted {
        Wanted::Key => write!(f, "missing key `{key}`"),
        Wanted::NoSuchKey => write!(f, "unknown key `{key}`"),
        Wanted::Number { least, most } => {
            write!(f, "`{key}` must be an integer from {least} to {most}")?;
            f.write_str(limit_of(key, most))
        }
        Wanted::List { least, most } => {
            write!(f, "`{key}` must be a list of {least} to {most} entries")
        }
        Wanted::Named(kind) => write_named(f, key, kind),
        Wanted::Outcome => f.write_str("expected one of `done`, `reading` or `severity`"),
        _ => {
            let fault = fault_of(wanted);
            write!(f, "`{key}` {fault}")
        }
    }
}

/// What else the number of a key depends on: other keys of the file.
fn limit_of(key: &str, most: i64) -> &'static str {
    if key == "dmx_footprint" && most < 512 {
        ", the number of [[slot]] tables plus `more_slots`"
    } else if key == "label_id" {
        ", the slot that this secondary slot refines"
    } else {
        ""
    }
}

/// That a name of the standard was wanted, or its number.
fn write_named<W: fmt::Write>(f: &mut fmt::Formatter<W>, key: &str, kind: NameKind) -> fmt::Result {
    let most = kind.greatest();
    let example = example_of(kind);
    let word = kind.word();
    write!(
        f,
        "`{key}` must be an integer from 0 to {most}, or a name such as \"{example}\" (felosumay fixture --names {word} lists them)"
    )
}

/// One of the names of a kind.
fn example_of(kind: NameKind) -> &'static str {
    match kind {
        NameKind::Sensors => "temperature",
        NameKind::Units => "V DC",
        NameKind::Prefixes => "k",
        NameKind::Categories => "fixture, moving yoke",
        NameKind::Slots => "fine",
        NameKind::Labels => "pan",
    }
}

/// What is said of a key of any table whose value isn't one of those wanted, behind its name.
fn fault_of(wanted: Wanted) -> &'static str {
    match wanted {
        Wanted::Text => "must be a string of at most 32 printable ASCII characters",
        Wanted::Uid => "must be the UID of one device, such as \"7FF0:00000001\"",
        Wanted::Language => "must list codes of two lowercase letters, such as \"en\"",
        Wanted::Table => "must be a table",
        Wanted::Other => "repeats that of an earlier entry",
        _ => parameter_fault(wanted),
    }
}

/// The same of a key of a parameter that the profile adds.
fn parameter_fault(wanted: Wanted) -> &'static str {
    match wanted {
        Wanted::Pid => {
            "must be from 0x8000 to 0xFFDF, or the PID of a parameter of E1.20 or E1.37-1 that a fixture can add"
        }
        Wanted::Ascending => "must be greater than in every earlier entry",
        Wanted::CommandClass => "must be get, set, get_set or get_clear",
        Wanted::DataType => {
            "must be unsigned_byte, signed_byte, unsigned_word, signed_word, unsigned_dword, signed_dword, ascii, bit_field, not_defined, choice, names, rates, scenes, lock, pin or block"
        }
        Wanted::Slots => {
            "must be a string of two hexadecimal digits for each slot, at most 32 slots"
        }
        Wanted::Boolean => "must be true or false",
        Wanted::Agreement(agreement) => disagreement(agreement),
        _ => lacking_fault(wanted),
    }
}

/// The same of a key that has to agree with others.
fn disagreement(agreement: Agreement) -> &'static str {
    match agreement {
        Agreement::Fields => {
            "must be a list of at most 8 numbers, each a table such as { slots = 2, maximum_valid_value = 100 }"
        }
        Agreement::AllSlots => {
            "must cover exactly the slots of `default_value`, with limits that fit their slots and no minimum above its maximum"
        }
        Agreement::Start => "must match `data_type`, its limits and `fields`",
        Agreement::Standard => {
            "doesn't allow these commands or data (see docs/PARAMETERS.md for E1.20 and E1.37-1; only COMMS_STATUS has get_clear)"
        }
        Agreement::Names => {
            "must name each option, and each lock state from 1 on, exactly once, in ascending order of `pid` and `number`"
        }
        Agreement::Pids => {
            "must be a list of parameter names and PIDs, such as [\"DMX_START_ADDRESS\", 0x8001]"
        }
        _ => lock_fault(agreement),
    }
}

/// The same of locks.
fn lock_fault(agreement: Agreement) -> &'static str {
    match agreement {
        Agreement::Locks => "must have at most 64 entries of `parameters`, all tables together",
        Agreement::States => "names a state that LOCK_STATE doesn't have",
        Agreement::Opened => "has LOCK_STATE, which needs a GET and LOCK_PIN beside it",
        Agreement::Held => {
            "can't lock LOCK_STATE, a parameter with a slow SET, or one that the root lacks or can't set"
        }
        _ => vain_fault(agreement),
    }
}

/// The same of what is said in vain.
fn vain_fault(agreement: Agreement) -> &'static str {
    match agreement {
        Agreement::Reset => {
            "must be false: FACTORY_DEFAULTS has no value to reset this parameter to"
        }
        Agreement::Lacked => "starts no job: the fixture lacks this parameter",
        Agreement::Unasked => {
            "starts no job: there is no such state, self test or sensor, or the sensor is answered at once"
        }
        Agreement::Unexplained => {
            "is manufacturer-specific (0x8000 or greater), so a [[status]] must describe it"
        }
        Agreement::Sensors => "omits SENSOR_DEFINITION, but the file has a [[sensor]]",
        _ => course_fault(agreement),
    }
}

/// The same of what a sensor shows over time.
fn course_fault(agreement: Agreement) -> &'static str {
    match agreement {
        Agreement::Points => {
            "must be a list of at most 16 points, each a table such as { at = 60, value = 25 }"
        }
        Agreement::Rising => "must have its points in ascending order of `at`, no two at one time",
        Agreement::Way => "must be steps or ramp",
        Agreement::Rounds => "needs at least two points in `over_time`, the first with `at = 0`",
        Agreement::AtOnce => {
            "needs `answered_at_once = true`: jobs measure any other sensor ([[outcome]] has their readings)"
        }
        Agreement::OwnSlots => {
            "must be a list of personalities that each have slots of their own, or name in `slots_of` a personality that has"
        }
        _ => "omits a parameter for which the file has a starting value",
    }
}

/// The same of the parameters that the fixture lacks.
fn lacking_fault(wanted: Wanted) -> &'static str {
    match wanted {
        Wanted::Parameter => "must be a list of parameter names, such as [\"LAMP_STATE\"]",
        Wanted::Optional => "omits a parameter that every fixture must have",
        Wanted::Unneeded => "omits a parameter that a remaining one needs",
        _ => rule_fault(wanted),
    }
}

/// The same of a rule by which jobs end.
fn rule_fault(wanted: Wanted) -> &'static str {
    match wanted {
        Wanted::True => "must be true",
        Wanted::Task => "must be LAMP_STATE, POWER_STATE, PERFORM_SELFTEST or SENSOR_VALUE",
        Wanted::Severity => "must be advisory, warning or error",
        Wanted::OneOutcome => "can't be combined with another outcome",
        _ => "isn't a valid outcome for this parameter",
    }
}
