//! What is told of a fixture on which a script was played: a run takes the fixture itself.

ghost use Rattle.std.specs.Prelude.{◌≡◌};

use arrayvec::ArrayVec;
use rdm_chart::Named;
use rdm_fixture::Fixture;
use rdm_frame::standard::MOST_SUB_DEVICES;
use rdm_frame::{Text, Uid};
use rdm_host::fault::Fault;
use rdm_profile::{
    ChoiceName, ChoiceNames, Field, OwnParameters, ParameterDef, Particular, Particulars, Profile,
    StatusText,
};
use rdm_script::{DEMO_DEVICE, Dialect, Spelling, Unplayed};
use rdm_words::Known;
use std::alloc::{AllocError, Global};

/// A fixture, as far as words, charts and faults tell of it.
#[derive(Drop)]
pub(crate) struct Told {
    uid: Uid,
    /// What the model is called.
    model: Text,
    /// It has the sub-devices, the sensors, the status texts, the maker's own parameters and the names of choices. Nothing else of a
    /// profile is told.
    profile: Profile,
}

impl Told {
    /// The fixture of the demonstration. A script can give it as many sub-devices as there can be.
    pub(crate) fn demonstration() -> Told {
        let profile = Profile::demo(MOST_SUB_DEVICES);
        Told {
            uid: DEMO_DEVICE,
            model: profile.root.model_text.copy(),
            profile,
        }
    }

    /// A fixture from a file.
    pub(crate) fn of(alloc: Global, fixture: &Fixture) -> Result<Told, AllocError> {
        Ok(Told {
            uid: fixture.uid,
            model: fixture.profile.root.model_text.copy(),
            profile: told_of(alloc, &fixture.profile)?,
        })
    }

    /// What frames don't say of it.
    pub(crate) fn known(&self) -> Known<'_> {
        Known::of(self.uid, &self.profile)
    }

    /// Its UID.
    pub(crate) fn uid(&self) -> Uid {
        self.uid
    }

    /// What a chart calls it.
    pub(crate) fn named(&self) -> Named<'_> {
        Named {
            uid: self.uid,
            name: self.model.as_slice(),
        }
    }

    /// Why the script of this name and text isn't played on it to its end.
    pub(crate) fn fault<'a>(&self, name: &'a str, text: &[u8], why: Unplayed) -> Fault<'a> {
        match why {
            Unplayed::OutOfMemory => Fault::Memory,
            Unplayed::Faulty(error) => Fault::script(name, &self.dialect(), text, error),
            Unplayed::Stopped(error, line) => {
                Fault::stopped(name, line, self.profile.subs, error)
            }
        }
    }

    /// What the words of a script may be.
    fn dialect(&self) -> Dialect<'_> {
        Dialect {
            device: self.uid,
            spelling: Spelling::Friendly,
            own: self.profile.particulars.own(),
        }
    }
}

/// What is told of a profile. The rest is that of the demonstration.
fn told_of(alloc: Global, profile: &Profile) -> Result<Profile, AllocError> {
    let particulars = &profile.particulars;
    Ok(Profile {
        subs: profile.subs,
        sensors: profile.sensors.iter().map(|def| def.copy()).collect(alloc)?,
        status_texts: profile.status_texts.iter().map(copied_text).collect(alloc)?,
        particulars: told_apart(alloc, particulars.own(), particulars.choices())?,
        ..Profile::demo(0)
    })
}

/// These parameters and these names of choices, and nothing else that sets a device apart.
fn told_apart(
    alloc: Global,
    own: &[ParameterDef],
    choices: &[ChoiceName],
) -> Result<Particulars, AllocError> {
    let own = own.iter().map(copied_parameter).collect(alloc)?;
    let choices = choices.iter().map(copied_choice).collect(alloc)?;
    let particular = Particular {
        own: OwnParameters::of(alloc, own)?,
        choices: ChoiceNames::of(alloc, choices)?,
        ..Particular::usual()
    };
    Particulars::of(alloc, particular)
}

/// The same text again.
fn copied_text(text: &StatusText) -> StatusText
    ensures { result ≡ text.now }
{
    StatusText {
        id: text.id,
        text: text.text.copy(),
    }
}

/// The same name again.
fn copied_choice(choice: &ChoiceName) -> ChoiceName
    ensures { result ≡ choice.now }
{
    ChoiceName {
        pid: choice.pid,
        number: choice.number,
        hertz: choice.hertz,
        name: choice.name.copy(),
    }
}

/// The same numbers again.
fn copied_fields(fields: &ArrayVec<Field, 8>) -> ArrayVec<Field, 8>
    ensures { result.items ≡ fields.now.items }
{
    match ArrayVec::try_from(fields.as_slice()) {
        Ok(fields) => fields,
        // A list of 8 places holds no more.
        Err(_) => unreachable!(),
    }
}

/// The same parameter again.
fn copied_parameter(def: &ParameterDef) -> ParameterDef {
    ParameterDef {
        pid: def.pid,
        rights: def.rights,
        shape: def.shape,
        low: def.low,
        high: def.high,
        fields: copied_fields(&def.fields),
        start: def.start.copy(),
        unit: def.unit,
        prefix: def.prefix,
        name: def.name.copy(),
        resets: def.resets,
    }
}
