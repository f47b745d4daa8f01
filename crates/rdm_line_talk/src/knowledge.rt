//! What a console knows of the fixtures on its line.

use clap::ArgMatches;
use rdm_device::Profile;
use rdm_fixture::Fixture;
use rdm_frame::Uid;
use rdm_host::fault::Fault;
use rdm_host::fixture::FixtureFile;
use rdm_host::host::Host;
use rdm_host::source::Source;
use rdm_words::{Known, Learned, Question};

/// What a console knows of the fixtures on its line: what their files say, and what they said of themselves.
#[derive(Drop)]
pub struct Knowledge {
    fixtures: Vec<Fixture>,
    learned: Learned,
}

impl Knowledge {
    /// That of the files that are asked for.
    pub fn asked_for<'a, H: Host>(rt: H, asked: &ArgMatches<'a>) -> Result<Knowledge, Fault<'a>> {
        let mut fixtures = Vec::new(rt.alloc());
        read_all(rt, asked, &mut fixtures)?;
        Ok(Knowledge {
            fixtures,
            learned: Learned::new(rt.alloc()),
        })
    }

    /// What is known of the fixture with this UID.
    pub fn of(&self, uid: Uid) -> Known<'_> {
        match profile_of(self.fixtures.as_slice(), uid) {
            Some(profile) => Known::of(uid, profile).and_learned(&self.learned),
            None => Known::learned(&self.learned),
        }
    }

    /// What the fixture with this UID has to be asked before a reply of it can be said in words: nothing if there is a file of it.
    pub fn missing(&self, uid: Uid, reply: &[u8]) -> Option<Question> {
        if profile_of(self.fixtures.as_slice(), uid).is_some() {
            return None;
        }
        self.learned.missing(reply)
    }

    /// Notes what a fixture answers to a question, if it does, so that it isn't asked again.
    pub fn note<'a>(&mut self, question: &Question, data: Option<&[u8]>) -> Result<(), Fault<'a>> {
        Ok(self.learned.note(question, data)?)
    }
}

/// The profile of the fixture with this UID, if there is a file of it.
fn profile_of(fixtures: &[Fixture], uid: Uid) -> Option<&Profile> {
    for fixture in fixtures {
        if fixture.uid == uid {
            return Some(&fixture.profile);
        }
    }
    None
}

/// Reads the files that are asked for.
fn read_all<'a, H: Host>(
    rt: H,
    asked: &ArgMatches<'a>,
    fixtures: &mut Vec<Fixture>,
) -> Result<(), Fault<'a>> {
    let Some(names) = asked.get_strs(rdm_usage::FIXTURE) else {
        return Ok(());
    };
    if is_input_a_script(asked) && names.iter().any(|name| *name == "-") {
        return Err(Fault::ReadTwice);
    }
    for name in names {
        read(rt, *name, fixtures)?;
    }
    Ok(())
}

/// Reads a file. Two of one UID are refused.
fn read<'a, H: Host>(rt: H, name: &'a str, fixtures: &mut Vec<Fixture>) -> Result<(), Fault<'a>> {
    let fixture = FixtureFile::read(rt, Source::named(Some(name)))?.fixture(rt)?;
    if profile_of(fixtures.as_slice(), fixture.uid).is_some() {
        return Err(Fault::TwoOfOneUid(name, fixture.uid));
    }
    Ok(fixtures.push(fixture)?)
}

/// Whether standard input is a script.
fn is_input_a_script(asked: &ArgMatches<'_>) -> bool {
    match asked.subcommand() {
        Some(("play", words)) => Source::named(words.get_str(rdm_usage::INPUT)) == Source::Input,
        _ => false,
    }
}
