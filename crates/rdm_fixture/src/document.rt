//! A text that describes a fixture.

ghost use Rattle.std.specs.Prelude.{◌≡◌, ◌≢◌, ◌↔◌, None, IfOk, IfErr, IsSome};
ghost use Rattle.toml.specs.Errors.{IsMemory};
ghost use Rattle.toml.specs.Parse.{parse_document};
ghost use Rattle.toml.specs.View.{table_view};
ghost use Rattle.rdm_profile.specs.Profiles.{CanBeMade};
ghost use Rattle.rdm_fixture.specs.Describes.{Describes, DescribesNothing};
ghost use Rattle.rdm_fixture.specs.Drafts.{particular_from, profile_with, fixture_with};
ghost use Rattle.rdm_fixture.specs.Describable.{CanBeDescribed};
ghost use Rattle.rdm_fixture.specs.Cause.{IsCause};
ghost use Rattle.rdm_fixture_keys.specs.Faults.{told};
ghost use Rattle.rdm_fixture.specs.FirstWrong.{fixture_parts};
ghost use Rattle.rdm_fixture.specs.Format.{IsFixture};
ghost use Rattle.rdm_fixture_keys.specs.Keys.{Reads};
ghost use Rattle.rdm_fixture.specs.OwnSlots.{AreModes, modes_part};
ghost use Rattle.rdm_fixture_keys.specs.Wrong.{FirstWrong};

use crate::line::with_line;
use crate::lists::list;
use crate::modes::modes;
use crate::profile::{Added, Apart, profile};
use crate::starting::values_at_start;
use crate::unit::and_unit_keys;
use crate::working::said_in_vain;
use crate::{Fixture, Refusal};
use rdm_device::{ChoiceNames, Locks, Modes, OwnParameters, Particular, Particulars, Profile};
use rdm_fixture_keys::keys::{only, own_uid};
use std::alloc::{AllocError, Global};
use std::fmt;
use thiserror::Error;
use toml::Table;

/// Why no fixture was read from a text.
#[derive(Debug, Drop, Error)]
pub enum FixtureError {
    /// Out of memory.
    #[error("out of memory")]
    OutOfMemory,
    /// The text isn't valid TOML.
    #[error("{0}")]
    Syntax(toml::de::Error),
    /// The document isn't a valid fixture.
    #[error("{0}")]
    Refused(Refusal),
}

impl Fixture {
    /// The fixture that the text describes.
    ///
    /// It is rejected exactly when it describes none: with `Syntax` if it isn't valid TOML, else with the first key that doesn't
    /// say what it has to.
    pub fn from_toml(alloc: Global, text: &str) -> Result<Fixture, FixtureError>
        ensures ok { IfOk result (Describes text.now) }
        ensures made { IfOk result (λ f. CanBeMade f.profile) }
        ensures describable { IfOk result CanBeDescribed }
        ensures refused { IfErr result (λ e. e ≢ FixtureError.OutOfMemory → DescribesNothing text.now) }
        ensures document { IfErr result (IsCause (parse_document text.now)) }
    {
        let table = match toml::table_from_str(alloc, text) {
            Ok(table) => table,
            Err(error) => return Err(not_read(error)),
        };
        // Memory for the modes is taken first: without it nothing is said of the text.
        let Ok(modes) = modes(alloc, &table) else {
            return Err(FixtureError::OutOfMemory);
        };
        match fixture_of(&table, modes) {
            Ok((fixture, apart)) => match set_apart(alloc, fixture, apart) {
                Ok(fixture) => Ok(fixture),
                Err(_) => Err(FixtureError::OutOfMemory),
            },
            Err(refusal) => Err(FixtureError::Refused(with_line(alloc, text, refusal))),
        }
    }
}

/// Why the text wasn't read: for want of memory, or because it isn't valid TOML.
fn not_read(error: toml::de::Error) -> FixtureError
    ensures memory { (result ≡ FixtureError.OutOfMemory) ↔ IsMemory error }
    ensures syntax { ¬ IsMemory error → result ≡ FixtureError.Syntax error }
{
    if error.is_memory() {
        FixtureError::OutOfMemory
    } else {
        FixtureError::Syntax(error)
    }
}

/// The fixture with this in its profile. It takes memory unless nothing is set apart by it.
fn set_apart(alloc: Global, fixture: Fixture, apart: Apart) -> Result<Fixture, AllocError>
    ensures { IfOk result (λ f. f ≡ fixture_with fixture apart) }
{
    let Fixture {
        uid,
        profile,
        outcomes,
        start,
    } = fixture;
    let particulars = particulars_of(alloc, apart)?;
    let profile = Profile {
        particulars,
        ..profile
    };
    Ok(Fixture {
        uid,
        profile,
        outcomes,
        start,
    })
}

fn particulars_of(alloc: Global, apart: Apart) -> Result<Particulars, AllocError>
    ensures { IfOk result (λ particulars. particulars ≡ particular_from apart) }
{
    let Apart {
        added,
        without,
        more_slots,
        estimates,
        mute_reply,
        newest_only,
        modes,
    } = apart;
    let Added {
        own,
        choices,
        locks,
    } = added;
    let particular = Particular {
        own: OwnParameters::of(alloc, own)?,
        choices: ChoiceNames::of(alloc, choices)?,
        locks: Locks::of(alloc, locks)?,
        without,
        more_slots,
        estimates,
        mute_reply,
        newest_only,
        modes,
    };
    Particulars::of(alloc, particular)
}

/// The fixture of a table, with no key besides those of the format, but for what sets its profile apart, which stands beside it. Its modes
/// were read before, or refused.
fn fixture_of(table: &Table, modes: Result<Modes, Refusal>) -> Result<(Fixture, Apart), Refusal>
    requires modes { Reads AreModes (table_view table.now) modes }
    requires refusal { IfErr modes (λ e. modes_part.Wrong (table_view table.now) (told e)) }
    ensures read { Reads (λ t r. IsFixture t (fixture_with r.0 r.1)) (table_view table.now) result }
    ensures made { IfOk result (λ r. CanBeMade (profile_with r.0.profile r.1)) }
    ensures describable { IfOk result (λ r. CanBeDescribed (fixture_with r.0 r.1)) }
    ensures wrong { IfErr result (λ e. FirstWrong fixture_parts (table_view table.now) (told e)) }
{
    only(
        table,
        and_unit_keys!(
            "uid",
            "boot_software_version_id",
            "boot_software_version_label",
            "languages",
            "presets",
            "more_slots",
            "binding_uid",
            "boot_loader",
            "proxied_device",
            "newest_only",
            "slot",
            "mode",
            "sensor",
            "self_test",
            "status",
            "without",
            "parameter",
            "choice",
            "lock",
            "outcome",
            "sub_devices",
            "estimates",
            "workers",
            "status_message",
            "device_hours",
            "lamp_hours",
            "lamp_strikes",
            "device_power_cycles"
        ),
    )?;
    let uid = own_uid(table, "uid")?;
    let (profile, apart) = profile(table, modes)?;
    let outcomes = list(table, "outcome", 0, 0)?;
    let start = values_at_start(table)?;
    let fixture = Fixture {
        uid,
        profile,
        outcomes,
        start,
    };
    match said_in_vain(&fixture, &apart) {
        None => Ok((fixture, apart)),
        Some(refusal) => Err(refusal),
    }
}
