//! The fixtures that subcommands are asked for.

ghost use Rattle.std.specs.Prelude.{IfOk};
ghost use Rattle.rdm_fixture.specs.Describes.{Describes};
ghost use Rattle.rdm_host.specs.Sources.{path_of, IsAskedFor};

use crate::fault::Fault;
use crate::host::Host;
use crate::source::Source;
use clap::ArgMatches;
use rdm_fixture::{Fixture, Starting};
use rdm_outcomes::demo_rules;
use rdm_profile::Profile;
use rdm_script::DEMO_DEVICE;
use std::str;

/// How many bytes a fixture file may have: 1 MiB.
const MOST_BYTES: u64 = 1048576;

/// How many keys a fixture file may have, and `=` in its comments: some times as many as any fixture has. The time to read them grows with
/// the square of their number.
const MOST_KEYS: u32 = 8192;

/// Whether there are more keys than a file may have: each has a `=` behind it. A line of them, as in a comment, is one.
fn has_too_many_keys(bytes: &[u8]) -> bool {
    let mut count = 0u32;
    let mut before = 0;
    for byte in bytes {
        if *byte == b'=' && before != b'=' {
            count = count.saturating_add(1);
        }
        before = *byte;
    }
    count > MOST_KEYS
}

/// The fixture of the file that is asked for, or the demonstration fixture without sub-devices.
pub fn asked_for<'a, H: Host>(rt: H, asked: &ArgMatches<'a>) -> Result<Fixture, Fault<'a>> {
    match FixtureFile::asked_for(rt, asked)? {
        Some(file) => file.fixture(rt),
        None => Ok(demonstration()),
    }
}

/// By what name messages tell of the fixture on which scripts are played.
pub const DEMONSTRATION: &str = "the demonstration";

/// The fixture on which scripts are played.
pub fn demonstration() -> Fixture {
    let profile = Profile::demo(0);
    Fixture {
        uid: DEMO_DEVICE,
        outcomes: demo_rules(),
        start: Starting::nothing(&profile.sensors),
        profile,
    }
}

/// A fixture's file, which was read: it may be a pipe, which can be read but once.
#[derive(Drop)]
pub struct FixtureFile<'a> {
    name: &'a str,
    /// What it holds.
    pub bytes: Vec<u8>,
}

impl<'a> FixtureFile<'a> {
    /// The file that is asked for, if one is.
    pub fn asked_for<H: Host>(
        rt: H,
        asked: &ArgMatches<'a>,
    ) -> Result<Option<FixtureFile<'a>>, Fault<'a>>
        ensures asked { IfOk result (IsAskedFor (H.reads rt) asked.now) }
    {
        match asked.get_str(rdm_usage::FIXTURE) {
            Some(path) => Ok(Some(FixtureFile::read(rt, Source::named(Some(path)))?)),
            None => Ok(None),
        }
    }

    /// By what name messages tell of it.
    pub fn name(&self) -> &'a str {
        self.name
    }

    /// Reads a file.
    pub fn read<H: Host>(rt: H, source: Source<'a>) -> Result<FixtureFile<'a>, Fault<'a>>
        ensures read { IfOk result (λ file. H.reads rt (path_of source.entry) file.bytes.items) }
    {
        Ok(FixtureFile {
            name: source.name(),
            bytes: source.read(rt, MOST_BYTES)?,
        })
    }

    /// The fixture that it describes.
    pub fn fixture<H: Host>(&self, rt: H) -> Result<Fixture, Fault<'a>>
        ensures described { IfOk result (Describes self.now.bytes.items) }
    {
        let bytes = self.bytes.as_slice();
        if has_too_many_keys(bytes) {
            return Err(Fault::TooManyKeys(self.name, MOST_KEYS));
        }
        let text = match str::from_utf8(bytes) {
            Ok(text) => text,
            Err(error) => return Err(Fault::no_text(self.name, bytes, error.valid_up_to())),
        };
        match Fixture::from_toml(rt.alloc(), text) {
            Ok(fixture) => Ok(fixture),
            Err(error) => Err(Fault::fixture(self.name, bytes, error)),
        }
    }
}
