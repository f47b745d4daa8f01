//! The parts of a profile, of texts and numbers that are known beforehand.

ghost use Rattle.std.specs.Prelude.{◌≡◌, ◌≤◌, length};
ghost use Rattle.rdm_profile.specs.Plain.{plain_unit, plain_profile};

use crate::{Particulars, Personality, Profile, Slot, Unit, Workers};
use arrayvec::ArrayVec;
use rdm_frame::Text;

impl Personality {
    /// How many slots it uses, and what it is called: at most 32 bytes.
    pub fn of(footprint: u16, name: &[u8]) -> Self
        requires { length name.now ≤ 32 }
        ensures { result ≡ record { footprint = footprint; name = name.now } }
    {
        Personality {
            footprint,
            name: Text::of(name),
        }
    }
}

impl Slot {
    /// The slot type, the slot label ID, the value when none is received, and what it is called: at most 32 bytes.
    pub fn of(kind: u8, label: u16, value: u8, name: &[u8]) -> Self
        requires { length name.now ≤ 32 }
        ensures { result ≡ record { kind = kind; label = label; value = value; name = name.now } }
    {
        Slot {
            kind,
            label,
            value,
            name: Text::of(name),
        }
    }
}

impl Unit {
    /// A device with these texts, of at most 32 bytes each. It has no personality and no software version yet, its label
    /// is its model's name, and its start address is 1.
    pub fn of(model: u16, category: u16, model_text: &[u8], maker_text: &[u8]) -> Self
        requires model { length model_text.now ≤ 32 }
        requires maker { length maker_text.now ≤ 32 }
        ensures { result ≡ plain_unit model category model_text.now maker_text.now }
    {
        Unit {
            model,
            category,
            software: 0,
            model_text: Text::of(model_text),
            maker_text: Text::of(maker_text),
            label: Text::of(model_text),
            software_text: Text::new(),
            personalities: ArrayVec::new(),
            start: 1,
        }
    }
}

impl Profile {
    /// These devices, with nothing else that a profile can have: neither boot software nor languages, slots, sensors, self
    /// tests, status texts, presets or parameters of the maker's own. Its
    /// slow commands take the usual time, of the usual workers.
    pub fn of(root: Unit, sub: Unit, subs: u16) -> Self
        ensures { result ≡ plain_profile root sub subs }
    {
        Profile {
            root,
            sub,
            subs,
            presets: 0,
            workers: Workers::usual(),
            boot: 0,
            boot_text: Text::new(),
            languages: ArrayVec::new(),
            slots: ArrayVec::new(),
            sensors: ArrayVec::new(),
            tests: ArrayVec::new(),
            status_texts: ArrayVec::new(),
            particulars: Particulars::usual(),
        }
    }
}
